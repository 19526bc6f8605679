//! How tables grow: at least to twice their length, and no more than they must.

ghost use Rattle.std.specs.Prelude.{◌≡◌, ◌+◌, ◌≤◌, vec_capacity, vec_len, IsOk, OnErr, OnOk, max};

use std::alloc::AllocError;

/// Makes room for `count` more. A table that must grow gets room for as many as it has, or for `count` where that is more.
pub fn reserve<T>(table: &mut Vec<T>, count: usize) -> Result<(), AllocError>
    ensures items { table.new.items ≡ table.old.items }
    ensures len { vec_len table.new ≡ vec_len table.old }
    ensures ok { OnOk result (vec_len table.old + count ≤ vec_capacity table.new) }
    ensures err { OnErr result (vec_capacity table.new ≡ vec_capacity table.old) }
    ensures least { vec_capacity table.old ≤ vec_capacity table.new }
    ensures most { vec_capacity table.new ≤ max (vec_capacity table.old) (vec_len table.old + max (vec_len table.old) count) }
    ensures had_room { vec_len table.old + count ≤ vec_capacity table.old → IsOk result }
{
    if count <= table.capacity() - table.len() {
        return Ok(());
    }
    table.reserve_exact(count.max(table.len()))
}
