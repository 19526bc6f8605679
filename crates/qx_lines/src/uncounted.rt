//! The counted calls of a line for callers that count nothing.
ghost use Rattle.std.specs.Prelude.{◌≡◌, ◌<◌, IfSome, IfNone, drop, slice_get};
ghost use Rattle.qx_lists.specs.Table.{IsFree, without};
ghost use Rattle.qx_isolation.specs.Lines.{into};
ghost use Rattle.qx_lines.specs.Line.{IsInLine, IsLineOf, SameElsewhere, nodes_in, rank_at};

use crate::Line;
use qx_lists::{Steps, Table};
use qx_types::Ranked;
use std::marker::Brand;
use std::sync::ledger::{Blank, Ledger};

/// An item comes: it waits behind all of its own priority or a higher one. Its node stands in no list before.
pub fn put<T: Ranked>(line: &mut Line, table: &mut Table<T>, node: usize)
    requires of { IsLineOf T.rank table.old line.old }
    requires free { IsFree table.old node }
    ensures of { IsLineOf T.rank table.new line.new }
    ensures put { nodes_in table.new line.new ≡ into (rank_at T.rank table.old) (nodes_in table.old line.old) node }
    ensures elsewhere { SameElsewhere table.old table.new line.old }
    ensures own { line.new.lists ≡ line.old.lists }
{
    put_by::<T, Brand, Brand>(line, table, node, Blank::new(1), Blank::new(1))
}

/// The item that goes first leaves, if there is one. Its node is then in no list.
pub fn take<T: Ranked>(line: &mut Line, table: &mut Table<T>) -> Option<usize>
    requires of { IsLineOf T.rank table.old line.old }
    ensures of { IsLineOf T.rank table.new line.new }
    ensures first { result ≡ slice_get (nodes_in table.old line.old) 0 }
    ensures rest { nodes_in table.new line.new ≡ drop 1 (nodes_in table.old line.old) }
    ensures none { IfNone result (table.new ≡ table.old) }
    ensures freed { IfSome result (IsFree table.new) }
    ensures elsewhere { SameElsewhere table.old table.new line.old }
    ensures own { line.new.lists ≡ line.old.lists }
{
    take_by::<T, Brand, Brand>(line, table, Blank::new(1), Blank::new(1))
}

/// An item leaves before its turn, as one that is unblocked does. Its node is then in no list.
pub fn remove<T: Ranked>(line: &mut Line, table: &mut Table<T>, node: usize)
    requires of { IsLineOf T.rank table.old line.old }
    requires in_line { IsInLine table.old line.old node }
    ensures of { IsLineOf T.rank table.new line.new }
    ensures removed { nodes_in table.new line.new ≡ without node (nodes_in table.old line.old) }
    ensures freed { IsFree table.new node }
    ensures elsewhere { SameElsewhere table.old table.new line.old }
    ensures own { line.new.lists ≡ line.old.lists }
{
    remove_by::<T, Brand, Brand>(line, table, node, Blank::new(1), Blank::new(1))
}

/// The item that goes first, which stays.
pub fn first<T: Ranked>(line: &Line, table: &Table<T>) -> Option<usize>
    requires { IsLineOf T.rank table.now line.now }
    ensures { result ≡ slice_get (nodes_in table.now line.now) 0 }
{
    first_by::<T, Brand, Brand>(line, table, Blank::new(1), Blank::new(1))
}

fn put_by<T: Ranked, L: Ledger, M: Ledger>(
    line: &mut Line,
    table: &mut Table<T>,
    node: usize,
    changes: Blank,
    looks: Blank,
)
    requires of { IsLineOf T.rank table.old line.old }
    requires free { IsFree table.old node }
    requires changes { (changes.name ≡ L.name) × (changes.parts ≡ L.parts) × (0 < changes.parts) }
    requires looks { (looks.name ≡ M.name) × (looks.parts ≡ M.parts) × (0 < looks.parts) }
    ensures of { IsLineOf T.rank table.new line.new }
    ensures put { nodes_in table.new line.new ≡ into (rank_at T.rank table.old) (nodes_in table.old line.old) node }
    ensures elsewhere { SameElsewhere table.old table.new line.old }
    ensures own { line.new.lists ≡ line.old.lists }
{
    line.put(
        table,
        node,
        &mut Steps::<L>::new(changes),
        &mut Steps::<M>::new(looks),
    );
}

fn take_by<T: Ranked, L: Ledger, M: Ledger>(
    line: &mut Line,
    table: &mut Table<T>,
    changes: Blank,
    looks: Blank,
) -> Option<usize>
    requires of { IsLineOf T.rank table.old line.old }
    requires changes { (changes.name ≡ L.name) × (changes.parts ≡ L.parts) × (0 < changes.parts) }
    requires looks { (looks.name ≡ M.name) × (looks.parts ≡ M.parts) × (0 < looks.parts) }
    ensures of { IsLineOf T.rank table.new line.new }
    ensures first { result ≡ slice_get (nodes_in table.old line.old) 0 }
    ensures rest { nodes_in table.new line.new ≡ drop 1 (nodes_in table.old line.old) }
    ensures none { IfNone result (table.new ≡ table.old) }
    ensures freed { IfSome result (IsFree table.new) }
    ensures elsewhere { SameElsewhere table.old table.new line.old }
    ensures own { line.new.lists ≡ line.old.lists }
{
    line.take(
        table,
        &mut Steps::<L>::new(changes),
        &mut Steps::<M>::new(looks),
    )
}

fn remove_by<T: Ranked, L: Ledger, M: Ledger>(
    line: &mut Line,
    table: &mut Table<T>,
    node: usize,
    changes: Blank,
    looks: Blank,
)
    requires of { IsLineOf T.rank table.old line.old }
    requires in_line { IsInLine table.old line.old node }
    requires changes { (changes.name ≡ L.name) × (changes.parts ≡ L.parts) × (0 < changes.parts) }
    requires looks { (looks.name ≡ M.name) × (looks.parts ≡ M.parts) × (0 < looks.parts) }
    ensures of { IsLineOf T.rank table.new line.new }
    ensures removed { nodes_in table.new line.new ≡ without node (nodes_in table.old line.old) }
    ensures freed { IsFree table.new node }
    ensures elsewhere { SameElsewhere table.old table.new line.old }
    ensures own { line.new.lists ≡ line.old.lists }
{
    line.remove(
        table,
        node,
        &mut Steps::<L>::new(changes),
        &mut Steps::<M>::new(looks),
    );
}

fn first_by<T: Ranked, L: Ledger, M: Ledger>(
    line: &Line,
    table: &Table<T>,
    changes: Blank,
    looks: Blank,
) -> Option<usize>
    requires of { IsLineOf T.rank table.now line.now }
    requires changes { (changes.name ≡ L.name) × (changes.parts ≡ L.parts) × (0 < changes.parts) }
    requires looks { (looks.name ≡ M.name) × (looks.parts ≡ M.parts) × (0 < looks.parts) }
    ensures { result ≡ slice_get (nodes_in table.now line.now) 0 }
{
    line.first(
        table,
        &mut Steps::<L>::new(changes),
        &mut Steps::<M>::new(looks),
    )
}
