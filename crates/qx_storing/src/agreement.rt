//! Whether all that was noted stands in what was stored.

ghost use Rattle.std.specs.Prelude.{◌≡◌, ◌≢◌, ◌<◌, ◌≤◌, true, length, map, All, MatchBool};
ghost use Rattle.std.specs.List.{list_all};
ghost use Rattle.qx_storing.specs.Notes.{Agrees, StandsIn, rises_from};
ghost use Rattle.qx_storing.specs.inner.Marks.{AddsMarks, IsUnfit, IsFit, MarksTwice};

use crate::seat::{Note, Seat};
use qx_machine::Entry;
use qx_types::{Manager, Outcome, Request, Step};
use std::sync::ledger::Ledger;

/// Whether each note stands among the entries at its place, and the places are 1 to their number, each once and rising in
/// each seat. There is a mark for each entry.
pub(crate) fn agree<L: Ledger>(entries: &[Entry], marks: &mut [bool], seats: &[Seat<L>]) -> bool
    requires marks { length marks.old ≡ length entries.now }
    ensures { MatchBool result (Agrees entries.now (map (λ s. s.notes.items) seats.now)) (Agrees entries.now (map (λ s. s.notes.items) seats.now) → ⊥) }
{
    marks.fill(false);
    for seat in seats {
        if !fit(entries, marks, seat.notes()) {
            return false;
        }
    }
    are_all(marks)
}

/// Whether the notes of a seat stand at their places, which rise and were not marked. They are marked then.
fn fit(entries: &[Entry], marks: &mut [bool], notes: &[Note]) -> bool
    requires marks { length marks.old ≡ length entries.now }
    ensures len { length marks.new ≡ length marks.old }
    ensures fit { MatchBool result (IsFit entries.now marks.old notes.now marks.new) (IsUnfit entries.now marks.old notes.now) }
{
    stand(entries, notes) && rise(notes) && mark(marks, notes)
}

/// Whether all places are marked.
fn are_all(marks: &[bool]) -> bool
    ensures { result ≡ list_all (λ m. m) marks.now }
{
    marks.iter().all(|is_marked| *is_marked)
}

/// Whether each note stands at its place.
fn stand(entries: &[Entry], notes: &[Note]) -> bool
    ensures { MatchBool result (All (StandsIn entries.now) notes.now) (All (StandsIn entries.now) notes.now → ⊥) }
{
    for note in notes {
        if !stands(entries, note) {
            return false;
        }
    }
    true
}

fn stands(entries: &[Entry], note: &Note) -> bool
    ensures { MatchBool result (StandsIn entries.now note.now) (StandsIn entries.now note.now → ⊥) }
{
    if note.at == 0 {
        return false;
    }
    match entries.get((note.at - 1) as usize) {
        Some(entry) => {
            is_same_step(&entry.step, &note.step) && is_same_outcome(&entry.outcome, &note.outcome)
        }
        None => false,
    }
}

/// Whether two steps are equal; as `==` says, but with that in its contract.
fn is_same_step(left: &Step, right: &Step) -> bool
    ensures { MatchBool result (left.now ≡ right.now) (left.now ≢ right.now) }
{
    match (left, right) {
        (
            Step::Call { thread, request },
            Step::Call {
                thread: other,
                request: other_request,
            },
        ) => thread == other && is_same_request(request, other_request),
        (
            Step::Mount {
                thread,
                path,
                manager,
            },
            Step::Mount {
                thread: other,
                path: other_path,
                manager: other_manager,
            },
        ) => thread == other && path == other_path && is_same_manager(*manager, *other_manager),
        (
            Step::Receive { worker, manager },
            Step::Receive {
                worker: other,
                manager: other_manager,
            },
        ) => worker == other && is_same_manager(*manager, *other_manager),
        (Step::Call { .. } | Step::Mount { .. } | Step::Receive { .. }, _)
        | (_, Step::Call { .. } | Step::Mount { .. } | Step::Receive { .. }) => false,
        _ => left == right,
    }
}

/// Whether two managers are the same, by their numbers.
fn is_same_manager(left: Manager, right: Manager) -> bool
    ensures { MatchBool result (left ≡ right) (left ≢ right) }
{
    left.number() == right.number()
}

fn is_same_request(left: &Request, right: &Request) -> bool
    ensures { MatchBool result (left.now ≡ right.now) (left.now ≢ right.now) }
{
    left == right
}

fn is_same_outcome(left: &Outcome, right: &Outcome) -> bool
    ensures { MatchBool result (left.now ≡ right.now) (left.now ≢ right.now) }
{
    left == right
}

/// Whether the places rise.
fn rise(notes: &[Note]) -> bool
    ensures { result ≡ rises_from 0 notes.now }
{
    let mut last = 0;
    for note in notes {
        if note.at <= last {
            return false;
        }
        last = note.at;
    }
    true
}

/// Marks the places of the notes, unless one was marked before.
fn mark(marks: &mut [bool], notes: &[Note]) -> bool
    requires places { All (λ n. (0 < n.at) × (n.at ≤ length marks.old)) notes.now }
    ensures len { length marks.new ≡ length marks.old }
    ensures marks { MatchBool result (AddsMarks marks.old notes.now marks.new) (MarksTwice marks.old notes.now) }
{
    for note in notes {
        let place = (note.at - 1) as usize;
        if marks[place] {
            return false;
        }
        marks[place] = true;
    }
    true
}
