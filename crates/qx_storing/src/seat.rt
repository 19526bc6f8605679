//! A thread's place at a server: what it did, and its share of the ledger.

ghost use Rattle.std.specs.Prelude.{◌≡◌, ◌<◌, ◌+◌, ◌++◌, ◌∷◌, [], vec_len, vec_capacity};

use qx_types::{Outcome, Step};
use std::alloc::Global;
use std::sync::ledger::{Book, Ledger, Share};

/// A step that was taken at a seat: its place in the stored list, from 1, and what it gave.
#[derive(Debug, Drop, PartialEq, Eq)]
pub struct Note {
    pub at: u64,
    pub step: Step,
    pub outcome: Outcome,
}

/// A thread's place at a server: one part of the server's ledger, as large as its notes are many.
#[derive(Drop)]
pub struct Seat<L: Ledger> {
    pub(crate) notes: Vec<Note>,
    pub(crate) share: Share<L>,
    ghost one_part: { share.parts ≡ 1 },
    ghost counted: { share.amount ≡ vec_len notes },
}

impl<L: Ledger> Seat<L> {
    /// A seat at which no step was taken.
    pub fn new(alloc: Global, share: Share<L>) -> Self
        requires parts { share.parts ≡ 1 }
        requires amount { share.amount ≡ 0 }
        ensures { result.notes.items ≡ [] }
    {
        Seat {
            notes: Vec::new(alloc),
            share,
        }
    }

    /// A note more, which counts in the book.
    pub(crate) fn add(&mut self, book: &mut Book<L>, note: Note)
        requires room { vec_len self.old.notes < vec_capacity self.old.notes }
        ensures total { book.new.total ≡ book.old.total + 1 }
        ensures noted { self.new.notes.items ≡ self.old.notes.items ++ note ∷ [] }
    {
        let Seat { notes, share } = self;
        book.add(share, 1);
        notes.push_reserved(note);
    }

    /// What was done at the seat, in order.
    pub fn notes(&self) -> &[Note]
        ensures { result.now ≡ self.now.notes.items }
    {
        self.notes.as_slice()
    }
}
