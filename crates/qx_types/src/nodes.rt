ghost use Rattle.std.specs.Prelude.{◌≡◌, ◌≤◌, ℕ};

use crate::names::Prio;

/// A value that stands in a priority line.
pub trait Ranked {
    /// The value's priority.
    ghost rank: { Self → ℕ };

    /// The priority, from 1.
    fn prio(&self) -> Prio
        ensures rank { result.0 ≡ rank self.now }
        ensures lowest { 1 ≤ result.0 };
}
