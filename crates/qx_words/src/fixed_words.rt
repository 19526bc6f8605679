//! The kinds of a few fixed words.

ghost use Rattle.std.specs.Prelude.{◌≡◌};
ghost use Rattle.qx_words.specs.FixedWords.{action_of, conditions_of, limit_of, manager_of, whence_of};

use qx_types::{Conds, Device, LimitName, Manager, NotifyAction, Whence};

/// A manager, by the word that is printed of it.
#[tactic(auto, using(crate::proofs::ReadFixedWords::manager_at_word), unfolding(crate::specs::FixedWords::manager_of))]
pub fn manager(word: &[u8]) -> Option<Manager>
    ensures manager { result ≡ manager_of word.now }
{
    if word == b"ram".as_slice() {
        Some(Manager::Ram)
    } else if word == b"pipe".as_slice() {
        Some(Manager::Pipe)
    } else {
        Some(Manager::Device(Device::of_word(word)?))
    }
}

/// Where an offset counts from: `set`, `cur` or `end`.
#[tactic(auto, unfolding(crate::specs::FixedWords::whence_of))]
pub fn whence(word: &[u8]) -> Option<Whence>
    ensures whence { result ≡ whence_of word.now }
{
    if word == b"set".as_slice() {
        Some(Whence::Set)
    } else if word == b"cur".as_slice() {
        Some(Whence::Current)
    } else if word == b"end".as_slice() {
        Some(Whence::End)
    } else {
        None
    }
}

/// What a notification is to do: `poll`, `pollarm` or `tranarm`.
#[tactic(auto, unfolding(crate::specs::FixedWords::action_of))]
pub fn action(word: &[u8]) -> Option<NotifyAction>
    ensures action { result ≡ action_of word.now }
{
    if word == b"poll".as_slice() {
        Some(NotifyAction::Poll)
    } else if word == b"pollarm".as_slice() {
        Some(NotifyAction::PollArm)
    } else if word == b"tranarm".as_slice() {
        Some(NotifyAction::TranArm)
    } else {
        None
    }
}

/// A limit of a user, by its name in small letters.
#[tactic(auto, unfolding(crate::specs::FixedWords::limit_of))]
pub fn limit_name(word: &[u8]) -> Option<LimitName>
    ensures limit { result ≡ limit_of word.now }
{
    if word == b"processes".as_slice() {
        Some(LimitName::Processes)
    } else if word == b"connections".as_slice() {
        Some(LimitName::Connections)
    } else if word == b"servers".as_slice() {
        Some(LimitName::Servers)
    } else if word == b"blocks".as_slice() {
        Some(LimitName::Blocks)
    } else if word == b"inodes".as_slice() {
        Some(LimitName::Inodes)
    } else if word == b"file".as_slice() {
        Some(LimitName::File)
    } else if word == b"bytes".as_slice() {
        Some(LimitName::Bytes)
    } else if word == b"mounts".as_slice() {
        Some(LimitName::Mounts)
    } else if word == b"events".as_slice() {
        Some(LimitName::Events)
    } else {
        None
    }
}

/// Conditions: `i`, `o` or `io`.
#[tactic(auto, unfolding(crate::specs::FixedWords::conditions_of))]
pub fn conditions(word: &[u8]) -> Option<Conds>
    ensures conditions { result ≡ conditions_of word.now }
{
    if word == b"i".as_slice() {
        Some(Conds(1))
    } else if word == b"o".as_slice() {
        Some(Conds(2))
    } else if word == b"io".as_slice() {
        Some(Conds(3))
    } else {
        None
    }
}
