//! A second system, so that what is said of each is not said of the machine alone.

ghost use Rattle.std.specs.Prelude.{◌≡◌, ℕ, List};
ghost use Rattle.qx_types.specs.Configuration.{Configuration};
ghost use Rattle.qx_types.specs.declared.step.Step.{Step};
ghost use Rattle.qx_isolation.specs.System.{erase, received, run};
ghost use Rattle.qx_isolation.specs.Tally.{tally};

use crate::laws;

/// No user's number tells what other users do, as a system inherits it that is written as a behaviour.
pub fn tallies_are_apart()
    ensures { (config : Configuration) (steps : List Step) (user : ℕ) → received user (run tally config steps).entries ≡ received user (run tally config (erase tally user config steps)).entries }
{
    laws::isolation::<u64>();
}
