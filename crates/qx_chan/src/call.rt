//! The call that a thread waits for, and its message as it is served.

ghost use Rattle.std.specs.Prelude.{◌≡◌, IfSome};
ghost use Rattle.qx_process.specs.Reads.{IsPriority, queued_in};
ghost use Rattle.qx_chan.specs.Calls.{call_by, call_with, unasked_in};

use qx_machine::{Sent, Target};
use qx_process::ThreadCell;

/// A call of a thread: where its message went, the call's number, and whether it was asked to unblock its thread.
#[derive(Clone, Copy, Debug, PartialEq, Eq)]
pub struct Call {
    pub target: Target,
    pub number: u64,
    pub is_asked: bool,
}

/// The call whose message stands in a line.
pub fn queued(thread: &ThreadCell) -> Option<Call>
    ensures call { result ≡ call_by queued_in thread.now }
{
    Some(call_of(thread, thread.queued()?))
}

/// The call whose message was received, is not answered and is not asked to unblock its thread.
pub fn unasked(thread: &ThreadCell) -> Option<Call>
    ensures call { result ≡ call_by unasked_in thread.now }
    ensures priority { IfSome result (λ call. IsPriority call.target.prio.0) }
{
    match thread.unanswered() {
        Some(sent) if !sent.is_asked => Some(call_of(thread, sent)),
        _ => None,
    }
}

/// The call that sent a thread's message.
pub fn call_of(thread: &ThreadCell, sent: &Sent) -> Call
    ensures call { result ≡ call_with thread.now sent.now }
{
    Call {
        target: sent.target,
        number: thread.calls(),
        is_asked: sent.is_asked,
    }
}
