//! Runs of the machine that are worked out.

ghost use Rattle.std.specs.Prelude.{◌≡◌};
ghost use Rattle.qx_machine.specs.Examples.{first_outcomes, first_script, one_user, outcomes_of};
ghost use Rattle.qx_machine.specs.Runs.{run};

/// One user's process opens its root, closes it, opens it again and asks for its status.
pub fn first_script_outcomes()
    ensures { outcomes_of (run one_user first_script) ≡ first_outcomes }
{}
