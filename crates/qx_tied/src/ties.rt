//! The list of what was tried at the seats of a run, and how much of it each seat tried.

ghost use Rattle.std.specs.Prelude.{◌≡◌, ◌<◌, ◌≤◌, ◌^◌, ◌++◌, ◌∷◌, [], IfSome, OnSome, length, true};
ghost use Rattle.qx_machine.specs.Machine.{World};
ghost use Rattle.qx_tied.specs.declared.event.Event.TheVariants.{Tried};
ghost use Rattle.qx_tied.specs.declared.event.Tagged.{Tagged};
ghost use Rattle.qx_tied.specs.Tied.{done_at, taken};
ghost use Rattle.qx_tied.specs.inner.Counts.{GoesOn, IsIdle};

use crate::event::{Event, Return, Tagged, Try};
use crate::front::{Front, Head};
use crate::seat::{OfRun, Seat};
use crossbeam_utils::CachePadded;
use std::marker::Model;

/// More events than a run comes to.
const MOST: u64 = 1 << 61;

/// The whole list of a run, and how much of it each seat tried.
#[derive(Drop)]
pub(crate) struct Ties<J: OfRun> {
    /// For each seat, how much was tried there; no two in one line of a processor's cache, as each is its thread's own.
    pub(crate) counts: Vec<CachePadded<u64>>,
    pub(crate) head: Head<Event, J>,
    pub(crate) front: Front<Event, J>,
}

impl<J: OfRun> Model for Ties<J> {
    ghost use Rattle.std.specs.Prelude.{length};
    ghost use Rattle.qx_tied.specs.inner.Counts.{AreCounts, Listed};

    ghost Value = { Listed };

    ghost view = { λ t. record { events = t.front; seats = length t.counts.items } };

    ghost invariant = { λ t. AreCounts t.counts.items t.front };
}

impl<J: OfRun> Ties<J> {
    /// Whether all that was tried at the seat is what the seat knows.
    pub(crate) fn are_known(&self, seat: &Seat<J>) -> bool
        ensures within { result ≡ true → seat.now.seat < self.now.seats }
        ensures idle { result ≡ true → IsIdle seat.now.seat seat.now.events self.now.events }
    {
        if seat.number >= self.counts.len() {
            return false;
        }
        if *self.counts[seat.number] != seat.count {
            return false;
        }
        seat.front.begins(&self.front)
    }

    /// The list with a step more that is tried at a seat, which has to be kept; nothing where the seat is not as it was left.
    pub(crate) fn tried(&self, seat: &Seat<J>, tagged: &Tagged) -> Option<Front<Event, J>>
        ensures within { OnSome result (seat.now.seat < self.now.seats) }
        ensures idle { OnSome result (IsIdle seat.now.seat seat.now.events self.now.events) }
        ensures room { OnSome result (length self.now.events ≤ 2 ^ 61) }
        ensures tried { IfSome result (λ front. front ≡ self.now.events ++ Tried tagged.now ∷ []) }
    {
        if self.front.len() >= MOST || !self.are_known(seat) {
            return None;
        }
        let mut front = self.front.again();
        if front.add::<Tagged, Try>(&self.head, tagged) {
            return Some(front);
        }
        None
    }

    /// Keeps a list that goes on with so many events of a seat.
    pub(crate) fn keep(&mut self, seat: &mut Seat<J>, front: Front<Event, J>, count: u64)
        requires within { seat.old.seat < self.old.seats }
        requires idle { IsIdle seat.old.seat seat.old.events self.old.events }
        requires room { length front ≤ 2 ^ 62 }
        requires more { GoesOn seat.old.seat count self.old.events front }
        ensures list { self.new ≡ record { events = front; seats = self.old.seats } }
        ensures seat { seat.new ≡ record { seat = seat.old.seat; events = front } }
    {
        seat.count += count;
        seat.front = front.again();
        *self.counts[seat.number] = seat.count;
        self.front = front;
    }

    /// Adds that a step that was tried came back, and keeps that. Where it can't be added the list is longer than is known, which
    /// does not come; then no later step can be added either.
    pub(crate) fn came_back(&mut self, seat: &mut Seat<J>, mut front: Front<Event, J>)
        requires within { seat.old.seat < self.old.seats }
        requires idle { IsIdle seat.old.seat seat.old.events self.old.events }
        requires room { length self.old.events ≤ 2 ^ 61 }
        requires tried { (tagged : Tagged) × (tagged.seat ≡ seat.old.seat) × (front ≡ self.old.events ++ Tried tagged ∷ []) }
        ensures seats { self.new.seats ≡ self.old.seats }
        ensures list { taken self.new.events ≡ taken self.old.events }
        ensures number { seat.new.seat ≡ seat.old.seat }
        ensures done { (began : World) → done_at began seat.new ≡ done_at began seat.old }
    {
        let number = seat.number;
        if front.add::<usize, Return>(&self.head, &number) {
            self.keep(seat, front, 2);
        }
    }
}
