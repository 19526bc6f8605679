//! A trace under the lock: each step is stored, and noted at the seat where it was taken.

ghost use Rattle.std.specs.Prelude.{◌≡◌, ◌≢◌, ◌≤◌, ◌<◌, ◌+◌, ◌++◌, ◌∷◌, [], length, map, sum_by, vec_len, vec_capacity, IfOk, IfErr, OnOk, IsErrOf, MatchBool, is_ok};
ghost use Rattle.qx_types.specs.declared.outcome.Outcome.{Outcome};
ghost use Rattle.qx_types.specs.declared.step.Step.{Step};
ghost use Rattle.qx_world.specs.Steps.{held_work, IsStale, PerformFault};
ghost use Rattle.qx_world.specs.Trace.{IsAfter, IsLast, outcome_now, run_of};
ghost use Rattle.qx_storing.specs.Notes.{Agrees, notes_after, note};
ghost use Rattle.qx_storing.specs.inner.Copies.{AreCopies};

use crate::agreement::agree;
use crate::copies::{answers, both};
use crate::seat::{Note, Seat};
use qx_types::{Config, Manager, NoMemory, Outcome, Step, Worker};
use qx_world::{PerformFault, Traced, UnderLock, Unstored, Work, World};
use std::alloc::{AllocError, Global};
use std::sync::ledger::{Book, Ledger, Share};

/// A trace, and the book of the ledger that counts its steps.
#[derive(Drop)]
pub struct Storing<L: Ledger> {
    alloc: Global,
    traced: Traced,
    book: Book<L>,
    /// A share of no part, into which the seats are taken at the end.
    remainder: Share<L>,
    /// For each step a place in which the end marks that it was noted.
    marks: Vec<bool>,
    ghost no_parts: { remainder.parts ≡ 0 },
    ghost no_amount: { remainder.amount ≡ 0 },
    ghost counted: { length traced.steps ≡ book.total },
    ghost marked: { vec_len marks ≡ length traced.steps },
}

impl<L: Ledger> Storing<L> {
    /// A trace at which no step was taken.
    pub fn new(
        alloc: Global,
        config: Config,
        book: Book<L>,
        remainder: Share<L>,
    ) -> Result<Self, NoMemory>
        requires total { book.total ≡ 0 }
        requires parts { remainder.parts ≡ 0 }
        requires amount { remainder.amount ≡ 0 }
        ensures config { IfOk result (λ storing. storing.traced.config ≡ config) }
        ensures steps { IfOk result (λ storing. storing.traced.steps ≡ []) }
    {
        let traced = Traced::new(alloc, config)?;
        Ok(Storing {
            alloc,
            traced,
            book,
            remainder,
            marks: Vec::new(alloc),
        })
    }

    /// A step is taken at a seat: it is stored, and noted with the outcome that is told; or it comes back, and nothing
    /// changed.
    fn store(&mut self, seat: &mut Seat<L>, step: Step) -> Result<Outcome, Unstored>
        ensures told { IfOk result (λ outcome. outcome ≡ outcome_now self.old.traced step) }
        ensures stored { IsAfter self.old.traced step (is_ok result) self.new.traced }
        ensures noted { seat.new.notes.items ≡ notes_after seat.old.notes.items self.old.traced step (is_ok result) }
        ensures handed_back { IfErr result (λ unstored. unstored.step ≡ step) }
    {
        let Storing {
            alloc,
            traced,
            book,
            remainder: _,
            marks,
        } = self;
        if make_room(marks, seat).is_err() {
            return Err(Unstored { step });
        }
        let Ok(answers) = answers(traced.world(), &step) else {
            return Err(Unstored { step });
        };
        let Ok(copy) = step.clone() else {
            return Err(Unstored { step });
        };
        traced.store(step)?;
        let alloc = *alloc;
        Ok(note_last(alloc, traced, book, marks, seat, copy, answers))
    }

    /// A worker does what it holds, if that is the work at hand, and the step is stored and noted.
    #[tactic(auto, using(qx_world::proofs::OutcomeLemmas::perform_plain))]
    fn store_work(
        &mut self,
        seat: &mut Seat<L>,
        worker: Worker,
        work: &Work,
        moment: u64,
    ) -> Result<Outcome, PerformFault>
        ensures told { IfOk result (λ outcome. outcome ≡ outcome_now self.old.traced (Step.Perform worker moment)) }
        ensures stored { IsAfter self.old.traced (Step.Perform worker moment) (is_ok result) self.new.traced }
        ensures noted { seat.new.notes.items ≡ notes_after seat.old.notes.items self.old.traced (Step.Perform worker moment) (is_ok result) }
        ensures stale { IsErrOf result PerformFault.Stale → IsStale (held_work (run_of self.old.traced).world worker.0) work.now }
    {
        let Storing {
            alloc,
            traced,
            book,
            remainder: _,
            marks,
        } = self;
        if make_room(marks, seat).is_err() {
            return Err(PerformFault::NoMemory);
        }
        traced.store_work(worker, work, moment)?;
        let step = Step::Perform { worker, moment };
        let alloc = *alloc;
        Ok(note_last(alloc, traced, book, marks, seat, step, None))
    }

    /// The trace, with the seats as they were, and whether all that they noted stands in it as it was stored.
    pub fn end(self, mut seats: Vec<Seat<L>>) -> (Traced, Vec<Seat<L>>, bool)
        requires all { L.parts ≤ vec_len seats }
        ensures traced { result.0 ≡ self.traced }
        ensures seats { map (λ s. s.notes.items) result.1.items ≡ map (λ s. s.notes.items) seats.items }
        ensures sum { length self.traced.steps ≡ sum_by (λ s. vec_len s.notes) seats.items }
        ensures agrees { MatchBool result.2 (Agrees (run_of self.traced).entries (map (λ s. s.notes.items) seats.items)) (Agrees (run_of self.traced).entries (map (λ s. s.notes.items) seats.items) → ⊥) }
    {
        let Storing {
            alloc: _,
            traced,
            mut book,
            mut remainder,
            mut marks,
        } = self;
        audit(&mut book, &mut seats, &mut remainder);
        let is_whole = agree(traced.entries(), marks.as_mut_slice(), seats.as_slice());
        (traced, seats, is_whole)
    }
}

impl<L: Ledger> UnderLock for Storing<L> {
    ghost use Rattle.qx_machine.specs.Reads.{next_manager};
    ghost use Rattle.qx_world.specs.Trace.{run_of};
    ghost use Rattle.qx_storing.specs.Notes.{AddsNone, AddsOne};

    type Seat = Seat<L>;

    ghost world_of = { λ storing. (run_of storing.traced).world };

    ghost next_of = { λ storing. next_manager (run_of storing.traced).world };

    ghost adds = { λ old new step outcome. AddsOne old.notes.items new.notes.items step outcome };

    ghost keeps = { λ old new. AddsNone old.notes.items new.notes.items };

    ghost seats = { L.parts };

    #[tactic(auto, using(crate::proofs::NoteLemmas::world_stored))]
    fn take(&mut self, seat: &mut Seat<L>, step: Step) -> Result<Outcome, Unstored> {
        self.store(seat, step)
    }

    #[tactic(auto, using(crate::proofs::NoteLemmas::world_stored))]
    fn perform(
        &mut self,
        seat: &mut Seat<L>,
        worker: Worker,
        work: &Work,
        moment: u64,
    ) -> Result<Outcome, PerformFault> {
        self.store_work(seat, worker, work, moment)
    }

    fn next_manager(&self) -> Option<Manager> {
        self.traced.world().next_manager()
    }

    fn world(&self) -> &World {
        self.traced.world()
    }
}

/// Makes room for a step's note and its mark.
fn make_room<L: Ledger>(marks: &mut Vec<bool>, seat: &mut Seat<L>) -> Result<(), AllocError>
    ensures marks { vec_len marks.new ≡ vec_len marks.old }
    ensures notes { seat.new.notes.items ≡ seat.old.notes.items }
    ensures mark_room { OnOk result (vec_len marks.new < vec_capacity marks.new) }
    ensures note_room { OnOk result (vec_len seat.new.notes < vec_capacity seat.new.notes) }
{
    seat.notes.reserve(1)?;
    marks.reserve(1)
}

/// Notes the step that was stored last, and tells its outcome.
#[tactic(auto, using(crate::proofs::NoteLemmas::entries_length))]
fn note_last<L: Ledger>(
    alloc: Global,
    traced: &Traced,
    book: &mut Book<L>,
    marks: &mut Vec<bool>,
    seat: &mut Seat<L>,
    step: Step,
    answers: Option<(Outcome, Outcome)>,
) -> Outcome
    requires mark_room { vec_len marks.old < vec_capacity marks.old }
    requires note_room { vec_len seat.old.notes < vec_capacity seat.old.notes }
    requires some { traced.now.steps ≢ [] }
    requires copies { (outcome : Outcome) → IsLast traced.now outcome → AreCopies answers outcome }
    ensures told { IsLast traced.now result }
    ensures marks { vec_len marks.new ≡ vec_len marks.old + 1 }
    ensures total { book.new.total ≡ book.old.total + 1 }
    ensures noted { seat.new.notes.items ≡ seat.old.notes.items ++ note (length traced.now.steps) step result ∷ [] }
{
    let at = traced.entries().len() as u64;
    let (outcome, told) = both(alloc, answers, traced.last());
    marks.push_reserved(false);
    seat.add(book, Note { at, step, outcome });
    told
}

/// Takes each seat's share in, compares their sum with the book, and gives the shares back.
fn audit<L: Ledger>(book: &mut Book<L>, seats: &mut Vec<Seat<L>>, remainder: &mut Share<L>)
    requires whole { L.parts ≤ remainder.old.parts + vec_len seats.old }
    requires within { remainder.old.parts ≤ L.parts }
    requires backed { remainder.old.parts ≡ 0 → remainder.old.amount ≡ 0 }
    ensures total { book.old.total ≡ remainder.old.amount + sum_by (λ s. vec_len s.notes) seats.old.items }
    ensures book { book.new.total ≡ book.old.total }
    ensures parts { remainder.new.parts ≡ remainder.old.parts }
    ensures amount { remainder.new.amount ≡ remainder.old.amount }
    ensures seats { map (λ s. s.notes.items) seats.new.items ≡ map (λ s. s.notes.items) seats.old.items }
    ensures len { vec_len seats.new ≡ vec_len seats.old }
    ensures capacity { vec_capacity seats.new ≡ vec_capacity seats.old }
{
    let Some(seat) = seats.pop() else {
        book.audit(remainder);
        return;
    };
    let Seat { notes, share } = seat;
    let amount = notes.len() as u64;
    remainder.merge(share);
    audit(book, seats, remainder);
    let share = remainder.split_off(1, amount);
    seats.push_reserved(Seat { notes, share });
}
