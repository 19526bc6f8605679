//! Which calls and which other steps a client chooses: pseudo-random ones, of which some are wrong.

ghost use Rattle.std.specs.Prelude.{◌≡◌, true, IfOk};
ghost use Rattle.qx_types.specs.Step.{is_client_step};

use crate::dice::Dice;
use qx_types::{
    Bytes, Coid, Conds, Manager, NotifyAction, OFlags, Prio, Proc, Request, Step, Thread, User,
    Whence,
};
use std::alloc::{AllocError, Global};

/// What the paths of files have behind the user's top; those of directories; those of pipes, where the pipe manager is
/// mounted at what comes before the last name; and paths of nobody, or none.
const FILES: [&str; 4] = ["/a", "/b", "/c", "/d/a"];

const DIRECTORIES: [&str; 4] = ["/d", "/d", "/p", ""];

const PIPES: [&str; 4] = ["/p/x", "/p/y", "/p/z", "/q/x"];

const ODD: [&str; 4] = ["", "user1", "/nobody/a", "/user1/.."];

/// A request of any kind, of a process that was given this connection last.
pub fn next_request(
    alloc: Global,
    dice: &mut Dice,
    user: User,
    last: Coid,
) -> Result<Request, AllocError> {
    let coid = next_connection(dice, last);
    Ok(match dice.below(33) {
        0..=8 => next_open(alloc, dice, user)?,
        9 => Request::StatPath {
            path: next_path(alloc, dice, user, &FILES)?,
        },
        10 => Request::Unlink {
            path: next_path(alloc, dice, user, &PIPES)?,
        },
        11 => Request::Unlink {
            path: next_path(alloc, dice, user, &FILES)?,
        },
        12 => Request::Mkdir {
            path: next_path(alloc, dice, user, &DIRECTORIES)?,
            mode: next_mode(dice),
        },
        13 => next_rename(alloc, dice, user)?,
        14..=17 => Request::Read {
            coid,
            count: next_count(dice),
        },
        18..=21 => Request::Write {
            coid,
            bytes: next_bytes(alloc, dice)?,
        },
        22..=24 => Request::Close { coid },
        _ => next_other(alloc, dice, coid)?,
    })
}

/// A request of one of the kinds that come seldom.
fn next_other(alloc: Global, dice: &mut Dice, coid: Coid) -> Result<Request, AllocError> {
    Ok(match dice.below(7) {
        0 => Request::Dup { coid },
        1 => Request::Seek {
            coid,
            whence: [Whence::Set, Whence::Current, Whence::End][usize::from(dice.below(3))],
            by: i64::from(dice.below(100)) - 20,
        },
        2 => Request::Fstat { coid },
        3 => Request::List {
            coid,
            after: Bytes::from_slice(alloc, &b"a/b"[usize::from(dice.below(4))..])?,
        },
        4 => Request::Chmod {
            coid,
            mode: next_mode(dice),
        },
        5 => Request::Notify {
            coid,
            action: [
                NotifyAction::Poll,
                NotifyAction::PollArm,
                NotifyAction::TranArm,
            ][usize::from(dice.below(3))],
            conds: Conds(1 + dice.below(16) / 5),
            code: dice.below(130),
            value: u32::from(dice.below(100)),
        },
        _ => Request::Raw {
            coid,
            bytes: next_raw(alloc, dice)?,
        },
    })
}

/// A step beside calls, most often of the client's own process or thread, whose user has so many clients.
pub fn next_step(
    alloc: Global,
    dice: &mut Dice,
    own: Thread,
    clients: u8,
) -> Result<Step, AllocError>
    ensures { IfOk result (λ step. is_client_step step ≡ true) }
{
    let proc = Proc {
        user: own.proc.user,
        num: 1 + dice.below(clients.clamp(1, 16)),
    };
    Ok(match dice.below(16) {
        0..=3 => Step::SetPrio {
            thread: own,
            prio: Prio(dice.below(65)),
        },
        4..=9 => Step::TakePulse { proc: own.proc },
        10..=12 => Step::Interrupt {
            thread: Thread { proc, tid: 1 },
        },
        13 => Step::Mount {
            thread: own,
            path: path_of(alloc, proc.user, "/q")?,
            manager: Manager::Pipe,
        },
        14 => Step::Exit { proc: own.proc },
        _ => Step::Exit { proc },
    })
}

/// An open of a file, a directory or a pipe. Few calls over it wait.
fn next_open(alloc: Global, dice: &mut Dice, user: User) -> Result<Request, AllocError> {
    let access = OFlags(1 + u16::from(dice.below(3)));
    let waiting = OFlags(if dice.one_in(4) { 0 } else { 64 });
    let (words, flags) = match dice.below(16) {
        0..=4 => (&FILES, access | OFlags::CREAT),
        5 => (&FILES, OFlags(u16::from(dice.below(160)))),
        6 | 7 => (&DIRECTORIES, OFlags::READ),
        _ => (&PIPES, access | OFlags::CREAT | waiting),
    };
    Ok(Request::OpenPath {
        path: next_path(alloc, dice, user, words)?,
        flags,
        mode: next_mode(dice),
    })
}

/// A rename of a file or a directory, now and then of one in place of the other.
fn next_rename(alloc: Global, dice: &mut Dice, user: User) -> Result<Request, AllocError> {
    let (from, to) = match dice.below(8) {
        0 => (&DIRECTORIES, &FILES),
        1 => (&FILES, &DIRECTORIES),
        2 | 3 => (&DIRECTORIES, &DIRECTORIES),
        _ => (&FILES, &FILES),
    };
    Ok(Request::Rename {
        from: next_path(alloc, dice, user, from)?,
        to: next_path(alloc, dice, user, to)?,
    })
}

/// A path with one of these words behind the user's top, and now and then an odd one.
fn next_path(
    alloc: Global,
    dice: &mut Dice,
    user: User,
    words: &[&str; 4],
) -> Result<Bytes, AllocError> {
    let place = usize::from(dice.below(4));
    if dice.one_in(32) {
        return Bytes::from_slice(alloc, ODD[place].as_bytes());
    }
    path_of(alloc, user, words[place])
}

/// A path with this behind the user's top.
pub fn path_of(alloc: Global, user: User, word: &str) -> Result<Bytes, AllocError> {
    let path = format!(in alloc; "/user{}{word}", user.0)?;
    Bytes::from_slice(alloc, path.as_bytes())
}

/// Most often one of the connections up to the last, and now and then any number.
fn next_connection(dice: &mut Dice, last: Coid) -> Coid {
    if dice.one_in(32) {
        Coid(dice.below(255))
    } else {
        Coid(3 + dice.below(last.0.clamp(3, 66) - 2))
    }
}

/// Most often all that the owner may do, and now and then less, or one bit too many.
fn next_mode(dice: &mut Dice) -> u16 {
    match dice.below(32) {
        0 => 0o1000,
        1 => 0o400,
        _ => 0o700,
    }
}

/// Few bytes most often, and now and then the most, or one too many.
fn next_count(dice: &mut Dice) -> u32 {
    if dice.one_in(32) {
        4_096 + u32::from(dice.below(2))
    } else {
        u32::from(dice.below(24))
    }
}

fn next_bytes(alloc: Global, dice: &mut Dice) -> Result<Bytes, AllocError> {
    let count = next_count(dice) as usize;
    Ok(Bytes::from_vec(vec![in alloc; dice.below(250); count]?))
}

/// The header of a message of any kind, or of none, with a few bytes behind it, or one too many.
fn next_raw(alloc: Global, dice: &mut Dice) -> Result<Bytes, AllocError> {
    let length = dice.below(3);
    let mut bytes = vec![in alloc; dice.below(11), 1, dice.below(4), 0, length, 0, 0, 0]?;
    for _ in 0..length + dice.below(8) / 7 {
        bytes.push(dice.below(5))?;
    }
    Ok(Bytes::from_vec(bytes))
}
