//! What a user asks, and the answers.

ghost use Rattle.std.specs.Prelude.{◌≡◌, IfOk};
ghost use Rattle.test_desk.specs.Asking.{step_of};

use qx_types::{Bytes, Coid, NoMemory, OFlags, Outcome, Request, Step, Thread};

/// To read and to write, and to be made where it is not there.
const OPENED: OFlags = OFlags(7);
/// A process' first connection.
const PIPE: Coid = Coid(3);

/// A request, with its number.
#[derive(Debug, Drop)]
pub struct Asked {
    pub number: u64,
    pub what: What,
}

/// What is asked: of nobody yet, or of a process.
#[derive(Debug, Drop)]
pub enum What {
    /// A process is started, with one thread, and attaches the pipe manager at a path.
    Join { path: Bytes },
    Act { process: u8, act: Act },
}

/// What a process is to do. It opens one pipe.
#[derive(Debug, Drop)]
pub enum Act {
    Open { path: Bytes },
    Get,
    Put { bytes: Bytes },
    /// The call in which the process waits is interrupted.
    Cancel,
}

/// The answer to a request: its number and its process, 0 if none was started, and what came of its last step.
#[derive(Debug, Drop)]
pub struct Told {
    pub number: u64,
    pub process: u8,
    pub outcome: Outcome,
}

/// A request that has no answer yet, and the process whose call waits.
#[derive(Clone, Copy, Debug)]
pub struct Waiting {
    pub number: u64,
    pub process: u8,
}

impl Act {
    /// The step by which a thread does it.
    pub fn step(&self, thread: Thread) -> Result<Step, NoMemory>
        ensures { IfOk result (λ step. step ≡ step_of thread self.now) }
    {
        let request = match self {
            Act::Open { path } => Request::OpenPath {
                flags: OPENED,
                mode: 0o600,
                path: path.clone()?,
            },
            Act::Get => Request::Read {
                coid: PIPE,
                count: 16,
            },
            Act::Put { bytes } => Request::Write {
                coid: PIPE,
                bytes: bytes.clone()?,
            },
            Act::Cancel => return Ok(Step::Interrupt { thread }),
        };
        Ok(Step::Call { thread, request })
    }
}
