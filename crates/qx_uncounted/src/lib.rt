//! The counted calls of a table of `qx_lists`, for callers that count nothing.
//!
//! They stand in a crate of their own, so that a crate whose work is counted, as `qx_lines`, can be without them.
#![tactic(auto)]

ghost use Rattle.std.specs.Prelude.{◌≡◌, ◌<◌, ◌++◌, ◌∷◌, [], IfSome, drop, slice_get};
ghost use Rattle.qx_lists.specs.Table.{ContainsList, IsFree, IsIn, next_after, nodes_of, put_before, with_nodes, without};

use qx_lists::{Steps, Table};
use std::marker::Brand;
use std::sync::ledger::{Blank, Ledger};

/// The first node of the list.
pub fn first<T>(table: &Table<T>, list: usize) -> Option<usize>
    requires { ContainsList table.now list }
    ensures { result ≡ slice_get (nodes_of table.now list) 0 }
{
    first_by::<T, Brand, Brand>(table, list, Blank::new(1), Blank::new(1))
}

/// The node right after `node` in the list.
pub fn next<T>(table: &Table<T>, list: usize, node: usize) -> Option<usize>
    requires { IsIn table.now list node }
    ensures { result ≡ next_after node (nodes_of table.now list) }
{
    next_by::<T, Brand, Brand>(table, list, node, Blank::new(1), Blank::new(1))
}

/// Puts a free node at the end of the list.
pub fn push_back<T>(table: &mut Table<T>, list: usize, node: usize)
    requires list { ContainsList table.old list }
    requires free { IsFree table.old node }
    ensures { table.new ≡ with_nodes table.old list (nodes_of table.old list ++ node ∷ []) }
{
    push_back_by::<T, Brand, Brand>(table, list, node, Blank::new(1), Blank::new(1))
}

/// Puts a free node into the list right before `at`.
pub fn insert_before<T>(table: &mut Table<T>, list: usize, at: usize, node: usize)
    requires at { IsIn table.old list at }
    requires free { IsFree table.old node }
    ensures { table.new ≡ with_nodes table.old list (put_before node at (nodes_of table.old list)) }
{
    insert_before_by::<T, Brand, Brand>(table, list, at, node, Blank::new(1), Blank::new(1))
}

/// Takes a node out of the list.
pub fn unlink<T>(table: &mut Table<T>, list: usize, node: usize)
    requires { IsIn table.old list node }
    ensures unlinked { table.new ≡ with_nodes table.old list (without node (nodes_of table.old list)) }
    ensures freed { IsFree table.new node }
{
    unlink_by::<T, Brand, Brand>(table, list, node, Blank::new(1), Blank::new(1))
}

/// Takes the first node out of the list.
pub fn pop_front<T>(table: &mut Table<T>, list: usize) -> Option<usize>
    requires { ContainsList table.old list }
    ensures first { result ≡ slice_get (nodes_of table.old list) 0 }
    ensures rest { table.new ≡ with_nodes table.old list (drop 1 (nodes_of table.old list)) }
    ensures freed { IfSome result (IsFree table.new) }
{
    pop_front_by::<T, Brand, Brand>(table, list, Blank::new(1), Blank::new(1))
}

fn first_by<T, L: Ledger, M: Ledger>(
    table: &Table<T>,
    list: usize,
    changes: Blank,
    looks: Blank,
) -> Option<usize>
    requires list { ContainsList table.now list }
    requires changes { (changes.name ≡ L.name) × (changes.parts ≡ L.parts) × (0 < changes.parts) }
    requires looks { (looks.name ≡ M.name) × (looks.parts ≡ M.parts) × (0 < looks.parts) }
    ensures { result ≡ slice_get (nodes_of table.now list) 0 }
{
    table.first(
        list,
        &mut Steps::<L>::new(changes),
        &mut Steps::<M>::new(looks),
    )
}

fn next_by<T, L: Ledger, M: Ledger>(
    table: &Table<T>,
    list: usize,
    node: usize,
    changes: Blank,
    looks: Blank,
) -> Option<usize>
    requires at { IsIn table.now list node }
    requires changes { (changes.name ≡ L.name) × (changes.parts ≡ L.parts) × (0 < changes.parts) }
    requires looks { (looks.name ≡ M.name) × (looks.parts ≡ M.parts) × (0 < looks.parts) }
    ensures { result ≡ next_after node (nodes_of table.now list) }
{
    table.next(
        list,
        node,
        &mut Steps::<L>::new(changes),
        &mut Steps::<M>::new(looks),
    )
}

fn push_back_by<T, L: Ledger, M: Ledger>(
    table: &mut Table<T>,
    list: usize,
    node: usize,
    changes: Blank,
    looks: Blank,
)
    requires list { ContainsList table.old list }
    requires free { IsFree table.old node }
    requires changes { (changes.name ≡ L.name) × (changes.parts ≡ L.parts) × (0 < changes.parts) }
    requires looks { (looks.name ≡ M.name) × (looks.parts ≡ M.parts) × (0 < looks.parts) }
    ensures { table.new ≡ with_nodes table.old list (nodes_of table.old list ++ node ∷ []) }
{
    table.push_back(
        list,
        node,
        &mut Steps::<L>::new(changes),
        &mut Steps::<M>::new(looks),
    );
}

fn insert_before_by<T, L: Ledger, M: Ledger>(
    table: &mut Table<T>,
    list: usize,
    at: usize,
    node: usize,
    changes: Blank,
    looks: Blank,
)
    requires at { IsIn table.old list at }
    requires free { IsFree table.old node }
    requires changes { (changes.name ≡ L.name) × (changes.parts ≡ L.parts) × (0 < changes.parts) }
    requires looks { (looks.name ≡ M.name) × (looks.parts ≡ M.parts) × (0 < looks.parts) }
    ensures { table.new ≡ with_nodes table.old list (put_before node at (nodes_of table.old list)) }
{
    table.insert_before(
        list,
        at,
        node,
        &mut Steps::<L>::new(changes),
        &mut Steps::<M>::new(looks),
    );
}

fn unlink_by<T, L: Ledger, M: Ledger>(
    table: &mut Table<T>,
    list: usize,
    node: usize,
    changes: Blank,
    looks: Blank,
)
    requires at { IsIn table.old list node }
    requires changes { (changes.name ≡ L.name) × (changes.parts ≡ L.parts) × (0 < changes.parts) }
    requires looks { (looks.name ≡ M.name) × (looks.parts ≡ M.parts) × (0 < looks.parts) }
    ensures unlinked { table.new ≡ with_nodes table.old list (without node (nodes_of table.old list)) }
    ensures freed { IsFree table.new node }
{
    table.unlink(
        list,
        node,
        &mut Steps::<L>::new(changes),
        &mut Steps::<M>::new(looks),
    );
}

fn pop_front_by<T, L: Ledger, M: Ledger>(
    table: &mut Table<T>,
    list: usize,
    changes: Blank,
    looks: Blank,
) -> Option<usize>
    requires list { ContainsList table.old list }
    requires changes { (changes.name ≡ L.name) × (changes.parts ≡ L.parts) × (0 < changes.parts) }
    requires looks { (looks.name ≡ M.name) × (looks.parts ≡ M.parts) × (0 < looks.parts) }
    ensures first { result ≡ slice_get (nodes_of table.old list) 0 }
    ensures rest { table.new ≡ with_nodes table.old list (drop 1 (nodes_of table.old list)) }
    ensures freed { IfSome result (IsFree table.new) }
{
    table.pop_front(
        list,
        &mut Steps::<L>::new(changes),
        &mut Steps::<M>::new(looks),
    )
}
