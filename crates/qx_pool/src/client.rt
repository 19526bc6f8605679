//! A client: a thread of a process that calls, and who takes other steps of clients.

ghost use Rattle.std.specs.Prelude.{◌≡◌, true, IfErr, IfOk};
ghost use Rattle.qx_types.specs.Step.{is_client_step};
ghost use Rattle.qx_pool.specs.Ends.{CallAdds, PulseAdds, StepKeeps};
ghost use Rattle.qx_pool.specs.Outcomes.{step_of};

use crate::ends::{CallEnd, PulseEnd, StepFault, call_end, pulse_end};
use crate::server::ServerOf;
use qx_monitor::{Called, Coming, Spinner};
use qx_types::{Outcome, Request, Step, Thread};
use qx_world::UnderLock;
use std::sync::Wait;

/// A thread of a process, at a seat of a server.
#[derive(Drop)]
pub struct ClientOf<S: UnderLock> {
    seat: S::Seat,
    thread: Thread,
    spinner: Spinner,
}

impl<S: UnderLock> ClientOf<S> {
    /// A client that calls as a thread, which need not be there yet.
    pub fn new(seat: S::Seat, thread: Thread) -> Self
        ensures seat { result.seat ≡ seat }
        ensures thread { result.thread ≡ thread }
    {
        let spinner = Spinner::new();
        ClientOf {
            seat,
            thread,
            spinner,
        }
    }

    /// Gives the seat back.
    pub fn into_seat(self) -> S::Seat
        ensures { result ≡ self.seat }
    {
        let ClientOf {
            seat,
            thread: _,
            spinner: _,
        } = self;
        seat
    }

    /// Calls, waits while the thread is blocked, and takes the answer (C Library Reference: `MsgSend`).
    pub fn call(&mut self, rt: &impl Wait, server: &ServerOf<S>, request: Request) -> CallEnd
        ensures seat { CallAdds S.adds S.keeps self.old.thread request self.old.seat self.new.seat result }
        ensures thread { self.new.thread ≡ self.old.thread }
    {
        let (monitor, thread) = (&server.monitor, self.thread);
        let mut guard = monitor.lock(rt);
        if let Some(stopped) = guard.stopped() {
            return CallEnd::Stopped(stopped);
        }
        let (begun, wake) = match monitor.call(&mut guard, &mut self.seat, thread, request) {
            Called::Sent(begun, wake) => (begun, wake),
            Called::Unsent(outcome) => return call_end(outcome),
            Called::NoMemory => return CallEnd::NoMemory,
        };
        drop(guard);
        monitor.wake_worker(wake);
        let mut guard = monitor.lock_for(rt, &mut self.spinner, begun);
        if let Some(stopped) = guard.stopped() {
            if guard.world().blocked(thread) {
                return CallEnd::Stopped(stopped);
            }
        }
        match guard.take_reply(&mut self.seat, thread) {
            Ok(outcome) => call_end(outcome),
            Err(_) => CallEnd::NoMemory,
        }
    }

    /// Waits while the thread's process has no pulse, and takes the first one (C Library Reference: `MsgReceivePulse`).
    pub fn pulse(&mut self, rt: &impl Wait, server: &ServerOf<S>) -> PulseEnd
        ensures seat { PulseAdds S.adds S.keeps self.old.thread.proc self.old.seat self.new.seat result }
        ensures thread { self.new.thread ≡ self.old.thread }
    {
        let proc = self.thread.proc;
        let first = Thread { proc, tid: 1 };
        let monitor = &server.monitor;
        let mut guard = monitor.lock_for_thread(rt, &mut self.spinner, Coming::Pulse, first);
        if let Some(stopped) = guard.stopped() {
            return PulseEnd::Stopped(stopped);
        }
        match guard.take_pulse(&mut self.seat, proc) {
            Ok(outcome) => pulse_end(&outcome),
            Err(_) => PulseEnd::NoMemory,
        }
    }

    /// Takes one step of any client, and gives its outcome; or hands it back where the server was stopped, or memory is short. It
    /// waits for the lock alone.
    pub fn step(
        &mut self,
        rt: &impl Wait,
        server: &ServerOf<S>,
        step: Step,
    ) -> Result<Outcome, StepFault>
        requires client { is_client_step step ≡ true }
        ensures seat { IfOk result (λ outcome. S.adds self.old.seat self.new.seat step outcome) }
        ensures kept { IfErr result (λ fault. StepKeeps S.keeps self.old.seat self.new.seat fault) }
        ensures handed_back { IfErr result (λ fault. step_of fault ≡ step) }
        ensures thread { self.new.thread ≡ self.old.thread }
    {
        let monitor = &server.monitor;
        let mut guard = monitor.lock(rt);
        if let Some(stopped) = guard.stopped() {
            return Err(StepFault::Stopped(step, stopped));
        }
        let (result, released, wake) = monitor.take(&mut guard, &mut self.seat, step);
        drop(guard);
        monitor.wake_clients(released);
        monitor.wake_worker(wake);
        match result {
            Ok(outcome) => Ok(outcome),
            Err(unstored) => Err(StepFault::NoMemory(unstored.step)),
        }
    }
}
