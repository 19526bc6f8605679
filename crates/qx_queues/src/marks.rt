//! Which managers' lines have an item: a word with a bit for each manager, by its number.

ghost use Rattle.std.specs.Prelude.{◌≡◌, ◌≢◌, ◌≤◌, ◌<◌, ℕ, false, IfNone, IfSome};
ghost use Rattle.qx_queues.specs.inner.Marks.{IsLowestFrom, is_marked};
ghost use Rattle.qx_types.specs.declared.names.TheConstants.Manager.{MOST};

use qx_types::Manager;

/// A mark for each manager whose line has an item.
pub(crate) type Marks = u64;

/// The marks with that of one manager, which tells whether its line has an item.
#[inline(always)]
pub(crate) fn marked(marks: Marks, number: usize, has_items: bool) -> Marks
    requires { number < MOST }
    ensures set { is_marked result number ≡ has_items }
    ensures others { (other : ℕ) → other < MOST → other ≢ number → is_marked result other ≡ is_marked marks other }
{
    let bit = 1u64 << number;
    if has_items { marks | bit } else { marks & !bit }
}

/// The lowest number, from one on, of a manager that is marked.
#[inline(always)]
pub(crate) fn lowest_from(marks: Marks, number: usize) -> Option<usize>
    ensures lowest { IfSome result (IsLowestFrom marks number) }
    ensures none { IfNone result ((other : ℕ) → number ≤ other → other < MOST → is_marked marks other ≡ false) }
{
    if number >= Manager::MOST {
        return None;
    }
    let left = marks >> number;
    if left == 0 {
        return None;
    }
    Some(number + left.trailing_zeros() as usize)
}
