//! A caller of a traced world: one request of a thread, from its call to its answer.
ghost use Rattle.std.specs.Prelude.{◌≡◌, ◌++◌, ◌∷◌, [], IfErr, OnOk};
ghost use Rattle.qx_machine.specs.Machine.{step};
ghost use Rattle.qx_machine.specs.Runs.{run};
ghost use Rattle.qx_world.specs.Trace.{IsLast};
ghost use Rattle.test_world.specs.Asked.{IsRefusedAt, before_answer};

use qx_types::{Manager, Outcome, Request, Step, Thread, Worker};
use qx_world::{Traced, Unstored};

/// A thread calls, the first worker receives an item from the RAM manager's line and does it, and the thread takes its
/// answer. What the last of these steps gave is lent by `last`. Where memory is short, the call or the perform comes back.
pub fn ask(
    traced: &mut Traced,
    thread: Thread,
    request: Request,
    moment: u64,
) -> Result<(), Unstored>
    ensures config { traced.new.config ≡ traced.old.config }
    ensures steps { OnOk result (traced.new.steps ≡ before_answer traced.old.steps thread request moment ++ Step.TakeReply thread ∷ []) }
    ensures told { (outcome : Outcome) → OnOk result (IsLast traced.new outcome → outcome ≡ (step (run traced.old.config (before_answer traced.old.steps thread request moment)).world (Step.TakeReply thread)).outcome) }
    ensures refused { IfErr result (λ unstored. IsRefusedAt traced.old.steps thread request moment unstored.step traced.new.steps) }
{
    let worker = Worker(1);
    let manager = Manager::Ram;
    let call = Step::Call { thread, request };
    if traced.reserve(4).is_err() {
        return Err(Unstored { step: call });
    }
    traced.store(call)?;
    traced.store(Step::Receive { worker, manager })?;
    traced.store(Step::Perform { worker, moment })?;
    traced.store(Step::TakeReply { thread })
}
