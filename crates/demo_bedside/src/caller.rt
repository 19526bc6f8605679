//! Who calls for a bed: a thread of a process, with what it says to a pump.

ghost use Rattle.std.specs.Prelude.{◌≡◌, true};
ghost use Rattle.qx_types.specs.Step.{is_client_step};

use crate::commands::bytes_of;
use crate::plan::Plan;
use crate::ward::{Ward, thread};
use qx_devices::pump::{Command, Pump, pump_of};
use qx_pool::{CallEnd, ClientOf, PulseEnd, StepFault, UnderLock};
use qx_types::{
    Bytes, Coid, Conds, MessageBytes, NotifyAction, OFlags, Outcome, Request, Step, Thread, User,
};
use std::alloc::{AllocError, Global};
use std::sync::Wait;
use std::sync::atomic::{AtomicU64, Ordering};

/// Why a thread of a bed can't go on.
#[derive(Clone, Copy, Debug, Drop, PartialEq, Eq, thiserror::Error)]
pub enum Fault {
    #[error("memory is short")]
    NoMemory,
    #[error("another thread gave up")]
    Stopped,
    #[error("a call or a step gave something else than it has to")]
    Unexpected,
    #[error("the clock can't be read")]
    Clock,
}

impl From<AllocError> for Fault {
    fn from(_error: AllocError) -> Fault {
        Fault::NoMemory
    }
}

/// The code of an alarm's pulse.
const ALARM: u8 = 1;

/// A thread of a bed's process, at a seat.
#[derive(Drop)]
pub struct Caller<'s, S: UnderLock> {
    alloc: Global,
    ward: &'s Ward<S>,
    /// Where its calls are counted.
    calls: &'s AtomicU64,
    thread: Thread,
    client: ClientOf<S>,
}

impl<'s, S: UnderLock> Caller<'s, S> {
    /// Calls as the first thread of a user's process of that number.
    pub fn new(
        alloc: Global,
        ward: &'s Ward<S>,
        calls: &'s AtomicU64,
        seat: S::Seat,
        user: User,
        num: u8,
    ) -> Caller<'s, S> {
        let thread = thread(user, num);
        Caller {
            alloc,
            ward,
            calls,
            thread,
            client: ClientOf::<S>::new(seat, thread),
        }
    }

    /// The same, of another process of the user.
    pub fn of(self, num: u8) -> Caller<'s, S> {
        let Caller {
            alloc,
            ward,
            calls,
            thread,
            client,
        } = self;
        let user = thread.proc.user;
        Caller::new(alloc, ward, calls, client.into_seat(), user, num)
    }

    pub fn thread(&self) -> Thread {
        self.thread
    }

    pub fn into_seat(self) -> S::Seat {
        self.client.into_seat()
    }

    /// Calls, and waits for the answer.
    pub fn call<R: Wait>(&mut self, rt: &R, request: Request) -> CallEnd {
        let end = self.client.call(rt, &self.ward.server, request);
        self.calls.fetch_add(1, Ordering::SeqCst);
        end
    }

    /// Takes another step.
    pub fn step<R: Wait>(&mut self, rt: &R, step: Step) -> Result<Outcome, Fault>
        requires { is_client_step step ≡ true }
    {
        match self.client.step(rt, &self.ward.server, step) {
            Ok(outcome) => Ok(outcome),
            Err(StepFault::Stopped(..)) => Err(Fault::Stopped),
            Err(StepFault::NoMemory(_)) => Err(Fault::NoMemory),
        }
    }

    /// Makes a call that has to be answered by a reply.
    fn ask<R: Wait>(&mut self, rt: &R, request: Request) -> Result<(u64, MessageBytes), Fault> {
        match self.call(rt, request) {
            CallEnd::Reply(status, bytes) => Ok((status, bytes)),
            CallEnd::NoMemory => Err(Fault::NoMemory),
            CallEnd::Stopped(_) => Err(Fault::Stopped),
            CallEnd::Failed(_) | CallEnd::Refused(_) | CallEnd::WrongState => {
                Err(Fault::Unexpected)
            }
        }
    }

    /// Opens the bed's pump, which is made where it is not there.
    pub fn open_pump<R: Wait>(&mut self, rt: &R) -> Result<Coid, Fault> {
        let path = path_of(self.alloc, self.thread.proc.user, "pumps/1")?;
        let request = Request::OpenPath {
            path,
            flags: OFlags::READ | OFlags::WRITE | OFlags::CREAT,
            mode: 0o600,
        };
        let (coid, _) = self.ask(rt, request)?;
        Ok(Coid(coid.min(255) as u8))
    }

    /// Gives the pump a command, which has to be allowed.
    pub fn command<R: Wait>(&mut self, rt: &R, pump: Coid, command: Command) -> Result<(), Fault> {
        let request = Request::Write {
            coid: pump,
            bytes: bytes_of(self.alloc, command)?,
        };
        self.ask(rt, request)?;
        Ok(())
    }

    /// Reads the pump.
    pub fn read<R: Wait>(&mut self, rt: &R, pump: Coid) -> Result<Pump, Fault> {
        let request = Request::Read {
            coid: pump,
            count: 5,
        };
        match self.ask(rt, request)? {
            (5, bytes) => Ok(pump_of(bytes.as_slice())),
            _ => Err(Fault::Unexpected),
        }
    }

    /// Asks for a pulse that comes with an alarm, where none stands.
    pub fn arm<R: Wait>(&mut self, rt: &R, pump: Coid) -> Result<(), Fault> {
        let request = Request::Notify {
            coid: pump,
            action: NotifyAction::PollArm,
            conds: Conds::INPUT,
            code: ALARM,
            value: 0,
        };
        match self.ask(rt, request)? {
            (0, _) => Ok(()),
            _ => Err(Fault::Unexpected),
        }
    }

    /// Sleeps until that pulse comes.
    pub fn wait_for_alarm<R: Wait>(&mut self, rt: &R) -> Result<(), Fault> {
        match self.client.pulse(rt, &self.ward.server) {
            PulseEnd::Pulse(ALARM, _) => Ok(()),
            PulseEnd::Pulse(..) | PulseEnd::WrongState => Err(Fault::Unexpected),
            PulseEnd::Stopped(_) => Err(Fault::Stopped),
            PulseEnd::NoMemory => Err(Fault::NoMemory),
        }
    }
}

/// A path with this behind the user's top.
pub fn path_of(alloc: Global, user: User, word: &str) -> Result<Bytes, AllocError> {
    let path = format!(in alloc; "/{}/{word}", Plan::name(user))?;
    Bytes::from_slice(alloc, path.as_bytes())
}
