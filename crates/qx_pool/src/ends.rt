//! How a call, and the waiting for a pulse, ended at a server, as the last outcome tells it.

ghost use Rattle.std.specs.Prelude.{◌≡◌};
ghost use Rattle.qx_pool.specs.Outcomes.{call_end, pulse_end, step_of};

use qx_monitor::WasStopped;
use qx_types::{Errno, MessageBytes, Outcome, Step};

/// How a call ended.
#[derive(Debug, Drop, PartialEq, Eq)]
pub enum CallEnd {
    /// The manager's reply: its status and its bytes (C Library Reference: `MsgReply`).
    Reply(u64, MessageBytes),
    /// The manager's error (C Library Reference: `MsgError`).
    Failed(Errno),
    /// The call was refused at once.
    Refused(Errno),
    /// The thread is not there or not ready; or its process ended, or its answer was taken, while the client waited.
    WrongState,
    /// The server was stopped. A message that was sent stands where it stood.
    Stopped(WasStopped),
    /// Memory was short, for the call or for its answer, which the thread then has still.
    NoMemory,
}

/// How the waiting for a pulse ended.
#[derive(Clone, Copy, Debug, Drop, PartialEq, Eq)]
pub enum PulseEnd {
    /// The pulse's code and its value (C Library Reference: `MsgReceivePulse`).
    Pulse(u8, u64),
    /// The process is not there, or has ended.
    WrongState,
    /// The server was stopped. A pulse that comes later is left.
    Stopped(WasStopped),
    /// Memory was short. The process has its pulse still.
    NoMemory,
}

/// Why a step was not taken, with the step.
#[derive(Debug, Drop)]
pub enum StepFault {
    /// The server was stopped.
    Stopped(Step, WasStopped),
    /// Memory was short.
    NoMemory(Step),
}

impl StepFault {
    /// The step that was not taken.
    pub fn into_step(self) -> Step
        ensures { result ≡ step_of self }
    {
        match self {
            StepFault::Stopped(step, _) | StepFault::NoMemory(step) => step,
        }
    }
}

/// The end of a call that was not sent, or whose answer was taken.
pub fn call_end(outcome: Outcome) -> CallEnd
    ensures { result ≡ call_end outcome }
{
    match outcome {
        Outcome::Reply(status, bytes) => CallEnd::Reply(status, bytes),
        Outcome::Failed(error) => CallEnd::Failed(error),
        Outcome::Refused(error) => CallEnd::Refused(error),
        _ => CallEnd::WrongState,
    }
}

/// The end of the waiting for a pulse, whose taking gave this.
pub fn pulse_end(outcome: &Outcome) -> PulseEnd
    ensures { result ≡ pulse_end outcome.now }
{
    match outcome {
        Outcome::Pulse(code, value) => PulseEnd::Pulse(*code, *value),
        _ => PulseEnd::WrongState,
    }
}
