//! What a step's work changed of the conditions of a user's open control blocks, and which processes live after it.

ghost use Rattle.std.specs.Prelude.{◌≡◌, ℕ, Bool};
ghost use Rattle.qx_machine.specs.declared.rows.Conditions.{Conditions as AllConditions};

use qx_machine::Conditions;

/// Which conditions held of an open control block before a step's work, and which hold after it.
#[derive(Clone, Copy, Debug, PartialEq, Eq)]
pub struct Change {
    pub before: Conditions,
    pub after: Conditions,
}

/// What a step's work changed of the conditions of a user's open control blocks, and which of the user's processes live after
/// it. Of a block whose pipe was not worked on both conditions are the same, whatever they are.
pub trait Changes {
    /// Which conditions held of each block before the work.
    ghost before: { Self → ℕ → AllConditions };

    /// Which conditions hold of each block after it.
    ghost after: { Self → ℕ → AllConditions };

    /// Which processes are there and have not ended.
    ghost lives: { Self → ℕ → Bool };

    /// Which conditions held and hold of a block.
    fn of(&self, block: u16) -> Change
        ensures before { result.before ≡ before self.now block }
        ensures after { result.after ≡ after self.now block };

    /// Whether a process is there and has not ended.
    fn lives(&self, process: u8) -> bool
        ensures lives { result ≡ lives self.now process };
}
