//! What a client was told, and what its notes say that it was told.

use qx_pool::{CallEnd, Note};
use qx_types::{Outcome, Step};

/// A sum over all answers and their order.
#[derive(Clone, Copy, Debug, PartialEq, Eq)]
pub struct Told {
    sum: u64,
}

impl Told {
    /// Nothing was told.
    pub fn new() -> Told {
        Told { sum: 0 }
    }

    /// What is to be told by these notes. That a call was sent is not told: its answer comes with a later note.
    pub fn by_notes(notes: &[Note]) -> Told {
        let mut told = Told::new();
        for note in notes {
            match (&note.step, &note.outcome) {
                (Step::Call { .. }, Outcome::Sent) => {}
                (_, outcome) => told.outcome(outcome),
            }
        }
        told
    }

    /// A call ended so. Of a stopped server and of want of memory no note tells.
    pub fn end(&mut self, end: &CallEnd) {
        match end {
            CallEnd::Reply(status, bytes) => self.mix(1, *status, bytes.as_slice()),
            CallEnd::Failed(error) => self.mix(2, 0, error.name().as_bytes()),
            CallEnd::Refused(error) => self.mix(3, 0, error.name().as_bytes()),
            CallEnd::WrongState => self.mix(4, 0, b""),
            CallEnd::Stopped(_) | CallEnd::NoMemory => {}
        }
    }

    /// A step gave this.
    pub fn outcome(&mut self, outcome: &Outcome) {
        match outcome {
            Outcome::Reply(status, bytes) => self.mix(1, *status, bytes.as_slice()),
            Outcome::Failed(error) => self.mix(2, 0, error.name().as_bytes()),
            Outcome::Refused(error) => self.mix(3, 0, error.name().as_bytes()),
            Outcome::WrongState => self.mix(4, 0, b""),
            Outcome::Spawned(num) => self.mix(5, u64::from(*num), b""),
            Outcome::Pulse(code, value) => self.mix(6, *value, &[*code]),
            Outcome::NoPulse => self.mix(7, 0, b""),
            Outcome::Done => self.mix(8, 0, b""),
            _ => self.mix(9, 0, b""),
        }
    }

    fn mix(&mut self, kind: u8, number: u64, bytes: &[u8]) {
        let mut sum = (self.sum ^ number).rotate_left(8) ^ u64::from(kind);
        for byte in bytes {
            sum = (sum ^ u64::from(*byte)).wrapping_mul(0x0100_0000_01b3);
        }
        self.sum = sum.wrapping_mul(6_364_136_223_846_793_005);
    }
}
