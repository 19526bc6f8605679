//! What stands in the list of a run.

use logbook::Plain;
use qx_types::Step;

/// A step, with the number of the seat at which it is tried.
#[derive(Drop)]
pub struct Tagged {
    pub seat: usize,
    pub step: Step,
}

/// What the list of a run tells. It exists in proofs alone, so no value of it is made.
#[derive(Drop)]
pub enum Event {
    /// A step was tried at a seat.
    Tried(Tagged),
    /// The step that was tried just before, at this seat, came back.
    CameBack(usize),
}

/// The move that adds that a step was tried.
pub struct Try;

impl Plain<Tagged, Event, u64> for Try {
    ghost use Rattle.std.specs.Prelude.{None};
    ghost use Rattle.qx_tied.specs.declared.event.Event.TheVariants.{Tried};

    ghost ask = { λ tagged. Tried tagged };

    ghost state = { λ tagged. None };
}

/// The move that adds that it came back.
pub struct Return;

impl Plain<usize, Event, u64> for Return {
    ghost use Rattle.std.specs.Prelude.{None};
    ghost use Rattle.qx_tied.specs.declared.event.Event.TheVariants.{CameBack};

    ghost ask = { λ seat. CameBack seat };

    ghost state = { λ seat. None };
}
