ghost use Rattle.std.specs.Prelude.{◌≡◌, ◌↔◌, ◌≢◌, ◌≤◌, All, AllPairs, IsOk, IsTrue, IsSome, IfSome, OnErr, OnOk, length, replicate, unwrap_or};
ghost use Rattle.std.specs.List.{list_all};
ghost use Rattle.std.specs.Option.{option_copied};
ghost use Rattle.qx_types.specs.declared.limits.TheConstants.Limits.{USERS, WORKERS};
ghost use Rattle.qx_types.specs.Configuration.{is_letter_or_digit, is_user_name, limits_of, name_bytes, name_of, set_limits, with_limits, IsConfiguration};
ghost use Rattle.qx_types.specs.UserLimits.{default_limits, most_of, with_limit};

use crate::limits::Limits;
use crate::names::{Prio, User};
use crate::out_of_range::OutOfRange;
use crate::user_limits::{LimitName, UserLimits};
use arrayvec::ArrayVec;
use qx_base::Bytes;
use std::alloc::AllocError;
use std::marker::Model;

/// Who uses the system, how many workers serve it, and what each user may ask for. Users are numbered from 1 in the order
/// of their names.
#[derive(Debug, Drop)]
pub struct Config {
    names: Vec<Bytes>,
    workers: u8,
    // In the value itself, so that to set one takes no memory.
    limits: AllLimits,
}

/// How many users there may be.
const PLACES: usize = Limits::USERS;

/// Limits for each user.
type AllLimits = ArrayVec<UserLimits, PLACES>;

impl Model for Config {
    ghost use Rattle.qx_types.specs.Configuration.{Configuration};

    ghost Value = { Configuration };

    ghost view = { λ c. record { users = c.names.items; workers = c.workers; limits = c.limits.items } };

    ghost use Rattle.std.specs.Prelude.{◌≡◌, ◌≤◌, length, vec_len};
    ghost use Rattle.qx_types.specs.declared.limits.TheConstants.Limits.{USERS, WORKERS};

    ghost invariant = { λ c. (vec_len c.names ≤ USERS) × (c.workers ≤ WORKERS) × (length c.limits.items ≡ length c.names.items) };
}

// Written out and not derived, so that its contract says outright that the copy is equal.
impl Clone for Config {
    ghost is_clone = { λ original copy. copy ≡ original };

    fn clone(&self) -> Result<Config, AllocError> {
        Ok(Config {
            names: self.names.clone()?,
            workers: self.workers,
            limits: self.limits.clone()?,
        })
    }
}

impl Config {
    /// A configuration, exactly where the names and numbers are within the limits and no two names are equal. Each user has
    /// the default of each limit, the ceiling 63, and disconnect pulses of priority 255.
    pub fn new(names: Vec<Bytes>, workers: u8) -> Option<Config>
        ensures valid { IsSome result ↔ IsConfiguration names.items workers }
        ensures value { IfSome result (λ c. c ≡ record { users = names.items; workers = workers; limits = replicate (length names.items) default_limits }) }
    {
        if names.len() <= Limits::USERS
            && (1..=Limits::WORKERS).contains(&workers)
            && are_names(&names)
        {
            let limits = default_limits(names.len());
            Some(Config {
                names,
                workers,
                limits,
            })
        } else {
            None
        }
    }

    /// Sets a user's ceiling, the greatest priority that the user may give a thread, from 1 to 255 (this profile). The last
    /// call for a user holds. `OutOfRange` for a user who is not there, and for 0.
    pub fn set_ceiling(&mut self, user: User, prio: Prio) -> Result<(), OutOfRange>
        ensures variant { IsOk result ↔ ((1 ≤ user.0) × (user.0 ≤ length self.old.users) × (1 ≤ prio.0)) }
        ensures ok { OnOk result (self.new ≡ with_limits self.old user.0 (record (limits_of self.old user.0) { ceiling = prio.0 })) }
        ensures err { OnErr result (self.new ≡ self.old) }
    {
        if !self.has(user) || prio.0 == 0 {
            return Err(OutOfRange);
        }
        let mut limits = self.limits(user);
        limits.set_ceiling(prio);
        self.put_limits(user, limits);
        Ok(())
    }

    /// Sets the priority of a user's disconnect pulses, from 1 to 255 (this profile). The last call for a user holds.
    /// `OutOfRange` for a user who is not there, and for 0.
    pub fn set_disconnect_prio(&mut self, user: User, prio: Prio) -> Result<(), OutOfRange>
        ensures variant { IsOk result ↔ ((1 ≤ user.0) × (user.0 ≤ length self.old.users) × (1 ≤ prio.0)) }
        ensures ok { OnOk result (self.new ≡ with_limits self.old user.0 (record (limits_of self.old user.0) { disconnect = prio.0 })) }
        ensures err { OnErr result (self.new ≡ self.old) }
    {
        if !self.has(user) || prio.0 == 0 {
            return Err(OutOfRange);
        }
        let mut limits = self.limits(user);
        limits.set_disconnect_prio(prio);
        self.put_limits(user, limits);
        Ok(())
    }

    /// Sets one limit of a user, from 1 to its default (this profile). The last call for a user and a limit holds.
    /// `OutOfRange` for a user who is not there, for 0, and for more than the default.
    pub fn set_limit(&mut self, user: User, name: LimitName, n: usize) -> Result<(), OutOfRange>
        ensures variant { IsOk result ↔ ((1 ≤ user.0) × (user.0 ≤ length self.old.users) × (1 ≤ n) × (n ≤ most_of name)) }
        ensures ok { OnOk result (self.new ≡ with_limits self.old user.0 (with_limit name n (limits_of self.old user.0))) }
        ensures err { OnErr result (self.new ≡ self.old) }
    {
        if !self.has(user) || n == 0 || n > name.most() {
            return Err(OutOfRange);
        }
        let mut limits = self.limits(user);
        limits.set(name, n);
        self.put_limits(user, limits);
        Ok(())
    }

    /// A user's limits.
    #[tactic(auto, unfolding(crate::specs::Configuration::limits_of), using(crate::proofs::LimitLemmas::in_ranges_same))]
    pub fn limits(&self, user: User) -> UserLimits
        ensures limits { result ≡ limits_of self.now user.0 }
    {
        let limits = self.limits_at(user).unwrap_or_default();
        limits.know();
        limits
    }

    /// The priority of a user's disconnect pulses.
    #[tactic(auto, using(crate::proofs::LimitLemmas::limits_within))]
    pub fn disconnect_prio(&self, user: User) -> Prio
        ensures prio { result.0 ≡ (limits_of self.now user.0).disconnect }
        ensures lowest { 1 ≤ result.0 }
    {
        self.limits(user).disconnect_prio()
    }

    /// The limits that stand under a user's number.
    fn limits_at(&self, user: User) -> Option<UserLimits>
        ensures limits { unwrap_or result default_limits ≡ set_limits self.now user.0 }
    {
        let index = usize::from(user.0).checked_sub(1)?;
        self.limits.get(index).copied()
    }

    /// Puts limits in the place of a user's.
    fn put_limits(&mut self, user: User, limits: UserLimits)
        requires user { (1 ≤ user.0) × (user.0 ≤ length self.old.users) }
        ensures put { self.new ≡ with_limits self.old user.0 limits }
    {
        self.limits[usize::from(user.0) - 1] = limits;
    }

    /// Whether there is that user.
    fn has(&self, user: User) -> bool
        ensures has { IsTrue result ↔ ((1 ≤ user.0) × (user.0 ≤ length self.now.users)) }
    {
        user.0 > 0 && usize::from(user.0) <= self.names.len()
    }

    /// Whether the bytes are a user's name: 1 to 16 lower-case ASCII letters and digits, a letter first.
    pub fn is_user_name(bytes: &[u8]) -> bool
        ensures { result ≡ is_user_name bytes.now }
    {
        match bytes.split_first() {
            None => false,
            Some((first, rest)) => {
                first.is_ascii_lowercase()
                    && are_letters_or_digits(rest)
                    && rest.len() < Limits::NAME
            }
        }
    }

    /// How many workers there are.
    pub fn workers(&self) -> u8
        ensures workers { result ≡ self.now.workers }
        ensures few { result ≤ WORKERS }
    {
        self.workers
    }

    /// The users' names, in the order of their numbers.
    pub fn names(&self) -> &[Bytes]
        ensures { result.now ≡ self.now.users }
    {
        self.names.as_slice()
    }

    /// How many users there are.
    pub fn user_count(&self) -> usize
        ensures count { result ≡ length self.now.users }
        ensures few { result ≤ USERS }
    {
        self.names.len()
    }

    /// The user's name; no user has the number 0 or one past the last.
    pub fn name(&self, user: User) -> Option<&Bytes>
        ensures { option_copied result ≡ name_of self.now user.0 }
    {
        let index = usize::from(user.0).checked_sub(1)?;
        self.names.get(index)
    }

    /// The bytes of the user's name, of which a number that no user has has none.
    pub fn name_bytes(&self, user: User) -> &[u8]
        ensures { result.now ≡ name_bytes self.now user.0 }
    {
        match self.name(user) {
            Some(name) => name.as_slice(),
            None => &[],
        }
    }
}

/// The limits of so many users where none is set.
fn default_limits(users: usize) -> AllLimits
    requires few { users ≤ USERS }
    ensures limits { result.items ≡ replicate users default_limits }
{
    let mut limits = ArrayVec::from([UserLimits::default(); PLACES]);
    limits.truncate(users);
    limits
}

/// Whether all names are users' names and no two of them are equal.
fn are_names(names: &[Bytes]) -> bool
    ensures { IsTrue result ↔ (All (λ name. IsTrue (is_user_name name)) names.now × AllPairs (λ one other. one ≢ other) names.now) }
{
    names
        .iter()
        .all(|name| Config::is_user_name(name.as_slice()))
        && are_different(names)
}

/// Whether there are only lower-case letters and digits.
fn are_letters_or_digits(bytes: &[u8]) -> bool
    ensures { result ≡ list_all is_letter_or_digit bytes.now }
{
    bytes
        .iter()
        .all(|byte| byte.is_ascii_lowercase() || byte.is_ascii_digit())
}

/// Whether no two names are equal.
fn are_different(names: &[Bytes]) -> bool
    ensures { IsTrue result ↔ AllPairs (λ one other. one ≢ other) names.now }
{
    for (index, name) in names.iter().enumerate() {
        if names[..index].contains(name) {
            return false;
        }
    }
    true
}
