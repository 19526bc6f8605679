ghost use Rattle.std.specs.Prelude.{◌≡◌, length};
ghost use Rattle.qx_types.specs.declared.limits.TheConstants.Limits.{PRIORITY};
ghost use Rattle.qx_script.specs.Settings.{CanBeSet, greatest, is_allowed, name_number, set_by, sets_same};

use qx_types::{Config, LimitName, Limits, Prio, User};

/// What can be set for a user.
#[derive(Clone, Copy, Debug)]
pub enum SettingName {
    /// The ceiling of the user's priorities.
    Ceiling,
    /// The priority of the user's disconnect pulses.
    Disconnect,
    /// One of the user's limits.
    Limit(LimitName),
}

/// What a line sets for a user.
#[derive(Clone, Copy, Debug)]
pub struct Setting {
    pub user: User,
    pub name: SettingName,
    pub value: u32,
}

impl Setting {
    /// Whether the value may be set.
    pub fn is_allowed(&self) -> bool
        ensures { result ≡ is_allowed self.now }
    {
        1 <= self.value && self.value as usize <= greatest(self.name)
    }

    /// Whether another one sets the same of the same user.
    pub fn sets_same(&self, other: &Setting) -> bool
        ensures { result ≡ sets_same self.now other.now }
    {
        name_number(self.name) == name_number(other.name) && self.user == other.user
    }

    /// Sets it.
    pub fn set(self, config: &mut Config)
        requires can { CanBeSet (length config.old.users) self }
        ensures set { config.new ≡ set_by self config.old }
    {
        let done = match self.name {
            SettingName::Ceiling => config.set_ceiling(self.user, Prio(self.value as u8)),
            SettingName::Disconnect => {
                config.set_disconnect_prio(self.user, Prio(self.value as u8))
            }
            SettingName::Limit(limit) => config.set_limit(self.user, limit, self.value as usize),
        };
        let Ok(()) = done else {
            unreachable!();
        };
    }
}

/// The greatest value of a priority, or of a limit.
fn greatest(name: SettingName) -> usize
    ensures { result ≡ greatest name }
{
    match name {
        SettingName::Ceiling | SettingName::Disconnect => usize::from(Limits::PRIORITY),
        SettingName::Limit(limit) => limit.most(),
    }
}

/// A number for each of them.
fn name_number(name: SettingName) -> u8
    ensures { result ≡ name_number name }
{
    match name {
        SettingName::Ceiling => 0,
        SettingName::Disconnect => 1,
        SettingName::Limit(LimitName::Processes) => 2,
        SettingName::Limit(LimitName::Connections) => 3,
        SettingName::Limit(LimitName::Servers) => 4,
        SettingName::Limit(LimitName::Blocks) => 5,
        SettingName::Limit(LimitName::Inodes) => 6,
        SettingName::Limit(LimitName::File) => 7,
        SettingName::Limit(LimitName::Bytes) => 8,
        SettingName::Limit(LimitName::Mounts) => 9,
        SettingName::Limit(LimitName::Events) => 10,
    }
}
