ghost use Rattle.std.specs.Prelude.{None, Some, ◌≡◌, ◌==◌, ◌≤◌, All, IfOk, IfSome, IsOk, IsTrue, if◌then◌else◌, length, map};
ghost use Rattle.qx_script.specs.Script.{after_line, after_user, after_words, after_workers, is_new_user, is_skipped, said, script_of, unread, with_command, with_setting_read};
ghost use Rattle.std.specs.List.{list_any};
ghost use Rattle.qx_script.specs.Settings.{CanBeSet, configured, sets_same};

use crate::command::Command;
use crate::lines::{ceiling, command, disconnect, limit, user, workers};
use crate::script::Script;
use crate::setting::Setting;
use qx_types::{Config, Limits, NoMemory};
use qx_words::Users;
use qx_words::words::split_words;
use std::alloc::Global;
use std::marker::Model;

/// What the lines of a script say so far.
#[derive(Debug, Drop)]
pub struct Reading {
    users: Users,
    settings: Vec<Setting>,
    workers: Option<u8>,
    commands: Vec<Command>,
}

impl Model for Reading {
    ghost use Rattle.std.specs.Prelude.{◌≤◌, All, IfSome, length};
    ghost use Rattle.qx_script.specs.Script as script;

    ghost Value = { script.Reading };

    ghost view = { λ r. record { users = r.users; settings = r.settings.items; workers = r.workers; commands = r.commands.items } };

    ghost use Rattle.qx_types.specs.declared.limits.TheConstants.Limits.{WORKERS};
    ghost use Rattle.qx_script.specs.Settings.{CanBeSet};

    ghost invariant = { λ r. IfSome r.workers (λ workers. (1 ≤ workers) × (workers ≤ WORKERS)) × All (CanBeSet (length r.users)) r.settings.items };
}

impl Reading {
    /// Nothing is read.
    pub fn new(alloc: Global) -> Self
        ensures unread { result ≡ unread }
    {
        Reading {
            users: Users::new(alloc),
            settings: Vec::new(alloc),
            workers: None,
            commands: Vec::new(alloc),
        }
    }

    /// Reads one more line, and says whether it is a good one. Its words stand in the place of those that are there. An empty
    /// line and a comment want no memory.
    #[tactic(auto, unfolding(crate::specs::Script::after_line))]
    pub fn read<'a>(
        &mut self,
        alloc: Global,
        words: &mut Vec<&'a [u8]>,
        line: &'a [u8],
    ) -> Result<bool, NoMemory>
        ensures read { IfOk result (λ good. (if good then Some self.new else None) ≡ after_line self.old line.now) }
        ensures skipped { IsTrue (is_skipped line.now) → IsOk result }
    {
        if is_skipped(line) {
            return Ok(true);
        }
        split_words(words, line)?;
        self.read_words(alloc, words.as_slice())
    }

    /// Reads the words of a line by the first of them.
    #[tactic(auto, unfolding(crate::specs::Script::after_words))]
    fn read_words(&mut self, alloc: Global, words: &[&[u8]]) -> Result<bool, NoMemory>
        ensures read { IfOk result (λ good. (if good then Some self.new else None) ≡ after_words self.old (map (λ word. word.now) words.now)) }
    {
        let [name, rest @ ..] = words else {
            return Ok(false);
        };
        if *name == b"user".as_slice() {
            self.read_user(alloc, rest)
        } else if *name == b"ceiling".as_slice() {
            let setting = ceiling(&self.users, rest);
            self.add_setting(setting)
        } else if *name == b"disconnect".as_slice() {
            let setting = disconnect(&self.users, rest);
            self.add_setting(setting)
        } else if *name == b"limit".as_slice() {
            let setting = limit(&self.users, rest);
            self.add_setting(setting)
        } else if *name == b"workers".as_slice() {
            Ok(self.read_workers(rest))
        } else {
            match command(alloc, &self.users, *name, rest)? {
                Some(command) => self.add_command(command),
                None => Ok(false),
            }
        }
    }

    /// `user NAME`
    fn read_user(&mut self, alloc: Global, words: &[&[u8]]) -> Result<bool, NoMemory>
        ensures read { IfOk result (λ good. (if good then Some self.new else None) ≡ after_user self.old (map (λ word. word.now) words.now)) }
    {
        let Some(name) = user(words) else {
            return Ok(false);
        };
        if !self.is_new_user(name) {
            return Ok(false);
        }
        self.users.push(alloc, name)?;
        Ok(true)
    }

    /// Whether a user of that name may come next.
    fn is_new_user(&self, name: &[u8]) -> bool
        ensures may_come { result ≡ is_new_user self.now name.now }
    {
        self.commands.is_empty() && !self.users.contains(name) && !self.users.is_full()
    }

    /// Adds what a line sets for a user.
    fn add_setting(&mut self, setting: Option<Setting>) -> Result<bool, NoMemory>
        requires within { IfSome setting (λ setting. (1 ≤ setting.user.0) × (setting.user.0 ≤ length self.old.users)) }
        ensures read { IfOk result (λ good. (if good then Some self.new else None) ≡ with_setting_read self.old setting) }
    {
        let Some(setting) = setting else {
            return Ok(false);
        };
        if !self.commands.is_empty() || self.sets_same(&setting) || !setting.is_allowed() {
            return Ok(false);
        }
        self.settings.push(setting)?;
        Ok(true)
    }

    /// Whether an earlier line sets the same.
    fn sets_same(&self, setting: &Setting) -> bool
        ensures { result ≡ list_any (sets_same setting.now) self.now.settings }
    {
        self.settings.iter().any(|other| setting.sets_same(other))
    }

    /// `workers NUMBER`
    fn read_workers(&mut self, words: &[&[u8]]) -> bool
        ensures read { (if result then Some self.new else None) ≡ after_workers self.old (map (λ word. word.now) words.now) }
    {
        let Some(workers) = workers(words) else {
            return false;
        };
        if !self.commands.is_empty()
            || self.workers.is_some()
            || workers < 1
            || workers > Limits::WORKERS
        {
            return false;
        }
        self.workers = Some(workers);
        true
    }

    /// Adds what a line asks for.
    fn add_command(&mut self, command: Command) -> Result<bool, NoMemory>
        ensures read { IfOk result (λ good. (if good then Some self.new else None) ≡ Some (with_command self.old command)) }
    {
        self.commands.push(command)?;
        Ok(true)
    }

    /// All that the script says.
    pub fn into_script(self) -> Script
        ensures script { said result ≡ script_of self }
    {
        let Reading {
            users,
            settings,
            workers,
            commands,
        } = self;
        let mut config = users.into_config(workers.unwrap_or(1));
        set_all(&mut config, settings.as_slice());
        Script::Good(config, commands)
    }
}

/// Sets what the lines set, one after the other.
fn set_all(config: &mut Config, settings: &[Setting])
    requires can { All (CanBeSet (length config.old.users)) settings.now }
    ensures set { config.new ≡ configured settings.now config.old }
{
    'settings: for setting in settings.iter() {
        setting.set(config);
    }
}

/// Whether a line is empty or a comment.
fn is_skipped(line: &[u8]) -> bool
    ensures skipped { result ≡ is_skipped line.now }
{
    match line {
        [] => true,
        [first, ..] => *first == b'#',
    }
}
