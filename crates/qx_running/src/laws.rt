//! The law of turns.

ghost use Rattle.std.specs.Prelude.{◌≡◌, ◌≢◌, ◌+◌, ◌<◌, ℕ, Some, true};
ghost use Rattle.qx_types.specs.Managers.{manager_number, managers};
ghost use Rattle.qx_types.specs.declared.names.Manager.{Manager};
ghost use Rattle.qx_machine.specs.Machine.{World};
ghost use Rattle.qx_running.specs.Running.{greatest_urgency, in_turn, is_as_urgent, stand_before};

/// A manager whose line is as urgent as that which is next comes nearer to its turn by each item that is taken from that line:
/// fewer managers stand before it then. So while its line stays as urgent as any and holds an item, fewer items are taken from
/// other lines of that urgency than there are managers (this profile).
#[tactic(auto, using(crate::proofs::TurnLemmas::passed_over))]
pub fn equals_come_nearer()
    ensures { (w : World) (turn : ℕ) (next other : Manager) → in_turn w turn ≡ Some next → is_as_urgent w (greatest_urgency w managers) other ≡ true → next ≢ other → stand_before (manager_number next + 1) other < stand_before turn other }
{}
