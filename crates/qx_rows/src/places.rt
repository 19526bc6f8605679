//! Tables of rows under small numbers: a place for each number, as long as the table has grown.

ghost use Rattle.std.specs.Prelude.{◌≡◌, ◌+◌, ◌<◌, ◌≤◌, ◌^◌, max, vec_capacity, vec_len, length, IfOk, IsOk, IsSome, OnOk, OnErr, OnSome, None, [], ◌∷◌, replicate, slice_set, Some};
ghost use Rattle.std.specs.Option.{option_copied};
ghost use Rattle.qx_isolation.specs.Rows.{row_at, lowest_from, put_row};

use crate::growth;
use arrayvec::ArrayVec;
use qx_hint::{assert_unchecked, unwrap_unchecked};
use std::alloc::{AllocError, Global};

/// The row under a number.
pub fn row<T>(places: &[Option<T>], number: usize) -> Option<&T>
    ensures row { option_copied result ≡ row_at places.now number }
    ensures within { OnSome result (number < length places.now) }
{
    match places.get(number) {
        Some(Some(row)) => Some(row),
        _ => None,
    }
}

/// The row under a number that has one.
pub fn there<T>(places: &[Option<T>], number: usize) -> &T
    requires there { IsSome (row_at places.now number) }
    ensures row { row_at places.now number ≡ Some result.now }
{
    unwrap_unchecked(places[number].as_ref())
}

/// The lowest free number that is not below the first.
pub fn lowest_free<T>(places: &[Option<T>], first: usize) -> usize
    requires small { first < 2 ^ 32 }
    ensures number { result ≡ lowest_from first places.now }
{
    for number in first..places.len() {
        if places[number].is_none() {
            return number;
        }
    }
    places.len().max(first)
}

/// Puts a row under a number, for which the table may grow: a full one to twice its length.
pub fn put<T: Drop>(places: &mut Vec<Option<T>>, number: usize, row: T) -> Result<(), AllocError>
    ensures ok { OnOk result (places.new.items ≡ put_row places.old.items number row) }
    ensures err { OnErr result (places.new.items ≡ places.old.items) }
    ensures within { number < length places.old.items → IsOk result }
    ensures most { vec_capacity places.new ≤ max (vec_capacity places.old) (vec_len places.old + max (vec_len places.old) 1) }
{
    if number >= places.len() {
        growth::reserve(places, 1)?;
    }
    put_reserved(places, number, row);
    Ok(())
}

/// Puts a row under a number, where the table has it or has room for one more.
pub fn put_reserved<T: Drop>(places: &mut Vec<Option<T>>, number: usize, row: T)
    requires room { length places.old.items ≤ number → vec_len places.old < vec_capacity places.old }
    ensures row { places.new.items ≡ put_row places.old.items number row }
    ensures len { vec_len places.new ≤ vec_len places.old + 1 }
    ensures capacity { vec_capacity places.new ≡ vec_capacity places.old }
{
    if number < places.len() {
        put_at(&mut places[number], row);
    } else {
        places.push_reserved(Some(row));
    }
}

/// Puts a row at its place, which is free most often.
#[inline(always)]
fn put_at<T: Drop>(place: &mut Option<T>, row: T)
    ensures row { place.new ≡ Some row }
{
    if place.is_some() {
        *place = None;
    }
    // so the compiler needs no copy of what goes
    assert_unchecked(place.is_none());
    *place = Some(row);
}

/// Puts a row under a number, where the table may have so many places.
pub fn put_within<T: Drop, const N: usize>(
    places: &mut ArrayVec<Option<T>, N>,
    number: usize,
    row: T,
)
    requires within { number < N }
    ensures row { places.new.items ≡ put_row places.old.items number row }
{
    if number < places.len() {
        places[number] = Some(row);
    } else {
        places.push(Some(row));
    }
}

/// A table with no row.
pub fn empty<T>(alloc: Global) -> Result<Vec<Option<T>>, AllocError>
    ensures none { IfOk result (λ places. places.items ≡ None ∷ []) }
    ensures capacity { IfOk result (λ places. vec_capacity places ≡ 1) }
{
    let mut places = Vec::with_capacity(alloc, 1)?;
    places.push_reserved(None);
    Ok(places)
}

/// A table of so many places, all free.
pub fn free_places<T: Drop>(alloc: Global, count: usize) -> Result<Vec<Option<T>>, AllocError>
    ensures free { IfOk result (λ places. places.items ≡ replicate count None) }
{
    let mut places = Vec::with_capacity(alloc, count)?;
    for _ in 0..count {
        places.push_reserved(None);
    }
    Ok(places)
}

/// Puts a row under a number of the table.
pub fn set<T: Drop>(places: &mut Vec<Option<T>>, number: usize, row: T)
    ensures row { places.new.items ≡ slice_set places.old.items number (Some row) }
{
    if number < places.len() {
        places[number] = Some(row);
    }
}

/// Frees a number.
pub fn free<T: Drop>(places: &mut Vec<Option<T>>, number: usize)
    ensures freed { places.new.items ≡ slice_set places.old.items number None }
    ensures len { vec_len places.new ≡ vec_len places.old }
    ensures capacity { vec_capacity places.new ≡ vec_capacity places.old }
{
    if number < places.len() {
        places[number] = None;
    }
}
