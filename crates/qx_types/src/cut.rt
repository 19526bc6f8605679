//! Steps and outcomes, cut to what a recorder keeps of them. None of it wants memory. `Cut.antt` says what is kept.

ghost use Rattle.std.specs.Prelude.{◌≡◌};
ghost use Rattle.qx_types.specs.Cut.{bytes_of_outcome, bytes_of_request, bytes_of_step, cut, cut_outcome, cut_request, cut_step};

use crate::outcome::Outcome;
use crate::request::Request;
use crate::step::Step;
use qx_base::MessageBytes;
use std::alloc::Global;

/// How many bytes a recorder keeps of a path, of what is written or sent, and of a reply: the first ones (this profile).
pub const KEPT: usize = MessageBytes::INLINE;

/// A step with each of its byte strings cut to the first `KEPT` bytes; all else stays. Memory of more is given back.
pub fn cut_step(step: Step) -> Step
    ensures { result ≡ cut_step step }
{
    let mut step = step;
    match &mut step {
        Step::Call { request, .. } => cut_request(request),
        Step::Mount { path, .. } => path.keep_first(KEPT),
        _ => {}
    }
    step
}

/// A copy of an outcome, with the bytes of a reply cut to the first `KEPT`.
pub fn cut_outcome(alloc: Global, outcome: &Outcome) -> Outcome
    ensures { result ≡ cut_outcome outcome.now }
{
    match outcome {
        Outcome::Spawned(num) => Outcome::Spawned(*num),
        Outcome::Refused(error) => Outcome::Refused(*error),
        Outcome::Done => Outcome::Done,
        Outcome::Sent => Outcome::Sent,
        Outcome::Reply(status, bytes) => Outcome::Reply(*status, first_of(alloc, bytes.as_slice())),
        Outcome::Failed(error) => Outcome::Failed(*error),
        Outcome::Pulse(code, value) => Outcome::Pulse(*code, *value),
        Outcome::NoPulse => Outcome::NoPulse,
        Outcome::WrongState => Outcome::WrongState,
        Outcome::Took(item) => Outcome::Took(*item),
        Outcome::Idle => Outcome::Idle,
        Outcome::Busy => Outcome::Busy,
        Outcome::Handled => Outcome::Handled,
        Outcome::Nothing => Outcome::Nothing,
    }
}

/// How many bytes a step has: of a rename those of both paths, and none where its kind has none.
pub fn bytes_of_step(step: &Step) -> usize
    ensures { result ≡ bytes_of_step step.now }
{
    match step {
        Step::Call { request, .. } => bytes_of_request(request),
        Step::Mount { path, .. } => path.len(),
        _ => 0,
    }
}

/// How many bytes a reply has; an outcome that is none has no bytes.
pub fn bytes_of_outcome(outcome: &Outcome) -> usize
    ensures { result ≡ bytes_of_outcome outcome.now }
{
    match outcome {
        Outcome::Reply(_, bytes) => bytes.as_slice().len(),
        _ => 0,
    }
}

/// A copy of the first bytes.
fn first_of(alloc: Global, bytes: &[u8]) -> MessageBytes
    ensures { result ≡ cut bytes.now }
{
    if bytes.len() <= KEPT {
        return MessageBytes::inline(alloc, bytes);
    }
    MessageBytes::inline(alloc, &bytes[..KEPT])
}

/// Cuts each of a request's byte strings.
fn cut_request(request: &mut Request)
    ensures { request.new ≡ cut_request request.old }
{
    match request {
        Request::OpenPath { path, .. } => path.keep_first(KEPT),
        Request::StatPath { path } => path.keep_first(KEPT),
        Request::Unlink { path } => path.keep_first(KEPT),
        Request::Mkdir { path, .. } => path.keep_first(KEPT),
        Request::Rename { from, to } => {
            from.keep_first(KEPT);
            to.keep_first(KEPT);
        }
        Request::Write { bytes, .. } => bytes.keep_first(KEPT),
        Request::List { after, .. } => after.keep_first(KEPT),
        Request::Raw { bytes, .. } => bytes.keep_first(KEPT),
        _ => {}
    }
}

/// How many bytes a request has.
fn bytes_of_request(request: &Request) -> usize
    ensures { result ≡ bytes_of_request request.now }
{
    match request {
        Request::OpenPath { path, .. }
        | Request::StatPath { path }
        | Request::Unlink { path }
        | Request::Mkdir { path, .. } => path.len(),
        Request::Rename { from, to } => from.len().saturating_add(to.len()),
        Request::Write { bytes, .. } | Request::Raw { bytes, .. } => bytes.len(),
        Request::List { after, .. } => after.len(),
        _ => 0,
    }
}
