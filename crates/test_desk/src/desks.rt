//! What ann is answered: with bob and without, and where memory is short for bob.

use crate::asked::{Act, Asked, Told, What};
use crate::own::Own;
use qx_desk::{By, Desk};
use qx_play::text::push_outcome;
use qx_types::{Bytes, NoMemory, User};
use std::alloc::{AllocError, Global};
use test_all_memory::take_all_memory;
use test_steps::script::{LinesFault, config};

const ANN: u8 = 1;

const BOB: u8 = 2;
/// No user of this number is configured.
const STRANGER: u8 = 9;
/// An input that belongs to no user is an input of each.
const EACH: u8 = 0;

/// What is asked: of a process, and with a path or bytes.
#[derive(Clone, Copy, Debug)]
enum Ask {
    Join(&'static str),
    Open(u8, &'static str),
    Get(u8),
    Put(u8, &'static str),
    Cancel(u8),
}

/// Who asks, the request's number, and what is asked.
const ASKS: [(u8, u64, Ask); 17] = [
    (ANN, 1, Ask::Join("/ann/p")),
    (BOB, 1, Ask::Join("/bob/p")),
    (ANN, 2, Ask::Join("/ann/q")),
    (BOB, 2, Ask::Open(1, "/bob/p/x")),
    (ANN, 3, Ask::Open(1, "/ann/p/x")),
    (ANN, 4, Ask::Open(2, "/ann/p/x")),
    (ANN, 5, Ask::Get(2)),
    (BOB, 3, Ask::Get(1)),
    (STRANGER, 1, Ask::Put(1, "no")),
    (ANN, 6, Ask::Get(2)),
    (BOB, 4, Ask::Join("/bob/q")),
    (BOB, 5, Ask::Open(2, "/bob/p/x")),
    (BOB, 6, Ask::Put(2, "bob")),
    (ANN, 7, Ask::Put(1, "hi")),
    (ANN, 8, Ask::Get(1)),
    (EACH, 9, Ask::Cancel(1)),
    (ANN, 10, Ask::Join("no path")),
];

/// What ann is answered: the number of a request, its process, and what came of it. Her read 5 waits for the write 7, a second
/// read of that process is no step, and her read 8 is cancelled.
const TO_ANN: &str = "\
    1 1 done\n\
    2 2 done\n\
    3 1 reply 3 -\n\
    4 2 reply 3 -\n\
    6 2 wrongstate\n\
    5 2 reply 2 6869\n7 1 reply 2 -\n\
    9 1 done\n8 1 error EINTR\n\
    10 3 refused EINVAL\n";

const TO_BOB: &str = "\
    1 1 done\n\
    2 1 reply 3 -\n\
    4 2 done\n\
    5 2 reply 3 -\n\
    3 1 reply 3 626f62\n6 2 reply 3 -\n\
    9 1 done\n";

fn input(alloc: Global, number: u64, ask: Ask) -> Result<Asked, AllocError> {
    let what = what_of(alloc, ask)?;
    Ok(Asked { number, what })
}

fn what_of(alloc: Global, ask: Ask) -> Result<What, AllocError> {
    let (process, act) = match ask {
        Ask::Join(path) => {
            let path = Bytes::from_slice(alloc, path.as_bytes())?;
            return Ok(What::Join { path });
        }
        Ask::Open(process, path) => {
            let path = Bytes::from_slice(alloc, path.as_bytes())?;
            (process, Act::Open { path })
        }
        Ask::Get(process) => (process, Act::Get),
        Ask::Put(process, text) => {
            let bytes = Bytes::from_slice(alloc, text.as_bytes())?;
            (process, Act::Put { bytes })
        }
        Ask::Cancel(process) => (process, Act::Cancel),
    };
    Ok(What::Act { process, act })
}

/// The answers to a user's input, at the moment 5.
fn told(
    alloc: Global,
    desk: &mut Desk<Own>,
    user: u8,
    input: &Asked,
) -> Result<Vec<Told>, NoMemory> {
    let by = By {
        user: User(user),
        moment: 5,
    };
    match desk.take(alloc, by, input) {
        Ok(told) => Ok(told),
        Err(_) => Err(NoMemory),
    }
}

fn push_told(alloc: Global, text: &mut Vec<u8>, told: &[Told]) -> Result<(), LinesFault> {
    let config = config(alloc)?;
    for one in told {
        let asked = format!(in alloc; "{} {} ", one.number, one.process)?;
        text.extend_from_slice(asked.as_bytes())?;
        push_outcome(text, &config, &one.outcome)?;
        text.push(b'\n')?;
    }
    Ok(())
}

/// The answers to a user, where all ask, or that user alone.
fn answers(alloc: Global, to: u8, is_alone: bool) -> Result<Vec<u8>, LinesFault> {
    let mut desk: Desk<Own> = Desk::open(alloc, config(alloc)?)?;
    let mut text = Vec::new(alloc);
    for (user, number, ask) in ASKS {
        let input = input(alloc, number, ask)?;
        for by in [ANN, BOB, STRANGER] {
            if (user == by || user == EACH) && (by == to || !is_alone) {
                let told = told(alloc, &mut desk, by, &input)?;
                if by == to {
                    push_told(alloc, &mut text, told.as_slice())?;
                }
            }
        }
    }
    Ok(text)
}

#[test]
fn answers_come_late_and_are_the_same_alone(rt: HostRuntime) -> Result<(), LinesFault> {
    let alloc = rt.alloc();
    for is_alone in [false, true] {
        assert!(rt; answers(alloc, ANN, is_alone)?.as_slice() == TO_ANN.as_bytes());
        assert!(rt; answers(alloc, BOB, is_alone)?.as_slice() == TO_BOB.as_bytes());
        assert!(rt; answers(alloc, STRANGER, is_alone)?.is_empty());
    }
    Ok(())
}

/// Bob asks while all memory is taken: whether that had no answer.
fn is_in_vain(alloc: Global, desk: &mut Desk<Own>, input: &Asked) -> Result<bool, LinesFault> {
    let _pieces = take_all_memory(alloc)?;
    Ok(told(alloc, desk, BOB, input).is_err())
}

#[test]
fn what_bob_had_no_memory_for_is_unseen(rt: HostRuntime) -> Result<(), LinesFault> {
    let alloc = rt.alloc();
    let mut desk: Desk<Own> = Desk::open(alloc, config(alloc)?)?;
    let mut text = Vec::new(alloc);
    for (user, number, ask) in ASKS {
        let input = input(alloc, number, ask)?;
        if user == BOB || user == EACH {
            assert!(rt; is_in_vain(alloc, &mut desk, &input)?);
        }
        if user == ANN || user == EACH {
            let told = told(alloc, &mut desk, ANN, &input)?;
            push_told(alloc, &mut text, told.as_slice())?;
        }
    }
    assert!(rt; text.as_slice() == TO_ANN.as_bytes());
    Ok(())
}
