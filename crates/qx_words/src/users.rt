ghost use Rattle.std.specs.Prelude.{true, false, ◌≡◌, ◌<◌, ◌≤◌, ◌++◌, ◌∷◌, [], IfSome, OnErr, OnOk, length, nat_lt, not, position, replicate};
ghost use Rattle.std.specs.List.{list_any};
ghost use Rattle.std.specs.Str.{bytes_eq};
ghost use Rattle.qx_types.specs.Configuration.{is_user_name};
ghost use Rattle.qx_types.specs.declared.limits.TheConstants.Limits.{USERS, WORKERS};
ghost use Rattle.qx_types.specs.UserLimits.{default_limits};
ghost use Rattle.qx_words.specs.Words.{user_in_word};

use qx_types::{Bytes, Config, Limits, NoMemory, User};
use std::alloc::Global;
use std::marker::Model;

/// The names of users, as many as a configuration may have, in the order of their numbers, which begin at 1.
#[derive(Debug, Drop)]
pub struct Users {
    names: Vec<Bytes>,
}

impl Model for Users {
    ghost use Rattle.std.specs.Prelude.{List, ℕ};
    ghost use Rattle.qx_types.specs.Configuration.{IsConfiguration};

    ghost Value = { List (List ℕ) };

    ghost view = { λ users. users.names.items };

    ghost invariant = { λ users. IsConfiguration users.names.items 1 };
}

impl Users {
    /// No users.
    pub fn new(alloc: Global) -> Self
        ensures none { result ≡ [] }
    {
        Users {
            names: Vec::new(alloc),
        }
    }

    /// Whether there is no room for another user.
    pub fn is_full(&self) -> bool
        ensures full { result ≡ not (nat_lt (length self.now) USERS) }
    {
        self.names.len() >= Limits::USERS
    }

    /// Whether a user has that name.
    pub fn contains(&self, name: &[u8]) -> bool
        ensures contains { result ≡ list_any (λ other. bytes_eq other name.now) self.now }
    {
        self.names.iter().any(|other| other.as_slice() == name)
    }

    /// Adds the next user.
    pub fn push(&mut self, alloc: Global, name: &[u8]) -> Result<(), NoMemory>
        requires name { is_user_name name.now ≡ true }
        requires other { list_any (λ other. bytes_eq other name.now) self.old ≡ false }
        requires room { length self.old < USERS }
        ensures ok { OnOk result (self.new ≡ self.old ++ name.now ∷ []) }
        ensures err { OnErr result (self.new ≡ self.old) }
    {
        let name = Bytes::from_slice(alloc, name)?;
        self.names.push(name)?;
        Ok(())
    }

    /// The configuration of these users and so many workers, in which nothing is set for any.
    pub fn into_config(self, workers: u8) -> Config
        requires some { 1 ≤ workers }
        requires few { workers ≤ WORKERS }
        ensures config { result ≡ record { users = self; workers = workers; limits = replicate (length self) default_limits } }
    {
        let Users { names } = self;
        match Config::new(names, workers) {
            Some(config) => config,
            None => unreachable!(),
        }
    }

    /// The user of that name.
    #[tactic(auto, unfolding(crate::specs::Words::user_in_word))]
    pub fn find(&self, word: &[u8]) -> Option<User>
        ensures found { result ≡ user_in_word self.now word.now }
        ensures within { IfSome result (λ user. (1 ≤ user.0) × (user.0 ≤ length self.now)) }
    {
        let place = place_of(&self.names, word)?;
        Some(User(place as u8 + 1))
    }
}

/// The place of a name.
fn place_of(names: &[Bytes], word: &[u8]) -> Option<usize>
    ensures first { result ≡ position (λ name. bytes_eq name word.now) names.now }
    ensures within { IfSome result (λ place. place < length names.now) }
{
    names.iter().position(|name| name.as_slice() == word)
}
