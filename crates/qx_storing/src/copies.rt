//! Copies of a step's outcome, for its note and for whoever took it. Those that want memory are made before the step, since
//! nothing may fail after it.

ghost use Rattle.std.specs.Prelude.{◌≡◌, IfOk};
ghost use Rattle.qx_machine.specs.Clients.{outcome_of};
ghost use Rattle.qx_machine.specs.Machine as machine;
ghost use Rattle.qx_storing.specs.inner.Copies.{AreCopies};

use qx_types::cut::cut_outcome;
use qx_types::{Answer, Outcome, Step};
use qx_world::World;
use std::alloc::{AllocError, Global};

/// Of a step that takes an answer, what it will give, twice; of another one nothing, since what that gives wants no memory.
#[tactic(auto, using(qx_world::proofs::OutcomeLemmas::plain_outcome, qx_world::proofs::OutcomeLemmas::taken_outcome, qx_world::proofs::OutcomeLemmas::unanswered_outcome))]
pub(crate) fn answers(world: &World, step: &Step) -> Result<Option<(Outcome, Outcome)>, AllocError>
    ensures { IfOk result (λ answers. AreCopies answers (machine.step world.now step.now).outcome) }
{
    let Step::TakeReply { thread } = step else {
        return Ok(None);
    };
    let Some(answer) = world.answer(*thread) else {
        return Ok(None);
    };
    Ok(Some((given(answer)?, given(answer)?)))
}

/// What a thread is told that takes this answer.
fn given(answer: &Answer) -> Result<Outcome, AllocError>
    ensures { IfOk result (λ outcome. outcome ≡ outcome_of answer.now) }
{
    Ok(match answer.clone()? {
        Answer::Reply(status, bytes) => Outcome::Reply(status, bytes),
        Answer::Failed(error) => Outcome::Failed(error),
    })
}

/// The outcome of a step that was taken, twice: the copies that were made before, or copies of an outcome that wants no
/// memory.
#[tactic(auto, using(crate::proofs::NoteLemmas::uncut))]
pub(crate) fn both(
    alloc: Global,
    answers: Option<(Outcome, Outcome)>,
    outcome: &Outcome,
) -> (Outcome, Outcome)
    requires copies { AreCopies answers outcome.now }
    ensures one { result.0 ≡ outcome.now }
    ensures other { result.1 ≡ outcome.now }
{
    match answers {
        Some(both) => both,
        None => (cut_outcome(alloc, outcome), cut_outcome(alloc, outcome)),
    }
}
