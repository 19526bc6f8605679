//! What no user sees of others.

ghost use Rattle.std.specs.Prelude.{◌≡◌, ◌≤◌, ℕ, List};
ghost use Rattle.qx_types.specs.Configuration.{Configuration};
ghost use Rattle.qx_desk.specs.Fronts.{Arrived, answers, for_user, inputs_of};
ghost use Rattle.test_desk.specs.Asking.{State, asking};
ghost use Rattle.test_desk.specs.declared.asked.Asked.{Asked};

use crate::asked::{Asked, Told};
use crate::own::Own;

/// The answers to a user's requests are those where nobody else asks anything.
pub fn asked_without_others()
    ensures { (config : Configuration) (inputs : List (Arrived State Asked)) (user : ℕ) → 1 ≤ config.workers → for_user user (answers asking config inputs) ≡ answers asking config (inputs_of user inputs) }
{
    qx_desk::laws::front_without_others::<Own, Asked, Told>();
}
