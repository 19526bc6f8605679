//! A thread's place at a run.

use crate::event::Event;
use crate::front::{Front, Naming};
use std::marker::{Brand, Model};

/// Which run it is: its list, and the world that it began with. Each call of a program picks them.
pub trait OfRun: Naming {
    ghost use Rattle.qx_machine.specs.Machine.{World};

    ghost began: { World };
}

impl OfRun for Brand {
    ghost use Rattle.std.specs.Prelude.{[]};
    ghost use Rattle.qx_machine.specs.Machine.{boot};

    ghost began = { boot (record { users = []; workers = 0; limits = [] }) };
}

/// A thread's place at a run. Contracts see its number, and what it knows of the run's list. It takes 24 bytes.
#[derive(Drop)]
pub struct Seat<J: OfRun> {
    pub(crate) number: usize,
    /// How much of it was tried here.
    pub(crate) count: u64,
    pub(crate) front: Front<Event, J>,
}

impl<J: OfRun> Model for Seat<J> {
    ghost use Rattle.std.specs.Prelude.{◌≡◌};
    ghost use Rattle.qx_tied.specs.Tied.{Known};
    ghost use Rattle.qx_tied.specs.inner.Counts.{tries_at};

    ghost Value = { Known };

    ghost view = { λ s. record { seat = s.number; events = s.front } };

    ghost invariant = { λ s. s.count ≡ tries_at s.number s.front };
}
