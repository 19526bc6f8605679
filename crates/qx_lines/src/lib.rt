//! Priority lines: the item that goes first stands in front, in order of priority, and first in first out among equals.
//!
//! A line is a list for each priority, all in one table of nodes, and a mark for each list that is not empty (`marks.rt`),
//! so no call walks past items. How much work a call is stands in its contract: `Steps` of `qx_lists` tick where a link or
//! a word of marks is changed, and where one is looked at. A caller that counts nothing makes the same calls through
//! `uncounted.rt`.
//!
//! What contracts see of a line is `Line.antt`, and of its marks `Marks.antt`. A caller uses the ruleset `line_facts`
//! (`proofs/LineFacts.antt`), which holds `table_facts` of `qx_lists`, as `put_and_remove` in `bench_times`. Of what it speaks
//! these stay closed to the prover: `AreApart`, which `list_once` opens, `AreRanked`, which `ranked_at` opens and
//! `ranked_from` closes, and `AreMarked`, likewise by `marked_at` and `marked_from`.
#![tactic(auto)]

ghost use Rattle.std.specs.Prelude.{◌≡◌, ◌+◌, ◌≤◌, ◌<◌, ℕ, IfOk, OnErr, IfSome, IfNone, None, [], drop, slice_get, is_some, if◌then◌else◌, length, MatchOption};
ghost use Rattle.std.specs.FinMap as map;
ghost use Rattle.qx_lists.specs.Table.{ContainsList, ContainsNode, IsFree, nodes_of, without};
ghost use Rattle.qx_isolation.specs.Lines.{into};
ghost use Rattle.qx_lines.specs.declared.marks.TheConstants.{WORDS};
ghost use Rattle.qx_lines.specs.Line.{IsInLine, IsLineOf, IsOwn, SameElsewhere, item_count, nodes_in, rank_at};
ghost use Rattle.qx_lines.specs.Marks.{words_down_to};
ghost use Rattle.qx_lines.specs.inner.Line.{AreNew, IsRemarked, list_of, with_empty};

mod marks;
pub mod uncounted;

use marks::{Marks, PRIORITIES};
use qx_hint::assert_unchecked;
use qx_lists::{Steps, Table};
use qx_types::Ranked;
use std::alloc::AllocError;
use std::sync::ledger::Ledger;

/// What waits to be received, as the kernel keeps its ready queue: for each priority the items in the order in which they
/// came (System Architecture: thread scheduling). The lists stand in a table, and each call is handed the one that the
/// line was made in.
#[derive(Debug, Drop)]
pub struct Line {
    lists: [usize; PRIORITIES],
    marks: Marks,
    len: usize,
}

impl Line {
    /// A line with no item.
    pub fn new<T: Ranked>(table: &mut Table<T>) -> Result<Line, AllocError>
        ensures empty { IfOk result (λ line. nodes_in table.new line ≡ []) }
        ensures of { IfOk result (IsLineOf T.rank table.new) }
        ensures was_new { IfOk result (λ line. (list : ℕ) → IsOwn line list → map.get table.old.lists list ≡ None) }
        ensures elsewhere { IfOk result (SameElsewhere table.old table.new) }
        ensures err { OnErr result (table.new ≡ table.old) }
    {
        let mut lists = [0; PRIORITIES];
        add_lists(table, &mut lists, 0)?;
        Ok(Line {
            lists,
            marks: Marks::NONE,
            len: 0,
        })
    }

    /// An item comes: it waits behind all of its own priority or a higher one. Its node stands in no list before.
    pub fn put<T: Ranked, L: Ledger, M: Ledger>(
        &mut self,
        table: &mut Table<T>,
        node: usize,
        changes: &mut Steps<L>,
        looks: &mut Steps<M>,
    )
        requires of { IsLineOf T.rank table.old self.old }
        requires free { IsFree table.old node }
        ensures of { IsLineOf T.rank table.new self.new }
        ensures put { nodes_in table.new self.new ≡ into (rank_at T.rank table.old) (nodes_in table.old self.old) node }
        ensures elsewhere { SameElsewhere table.old table.new self.old }
        ensures own { self.new.lists ≡ self.old.lists }
        ensures changes { changes.new ≡ changes.old + 5 }
        ensures looks { looks.new ≡ looks.old + 3 }
        ensures few_changes { changes.new ≤ changes.old + 8 }
        ensures few_looks { looks.new ≤ looks.old + 16 }
    {
        table.know();
        let priority = priority_of(table, node);
        table.push_back(self.lists[priority], node, changes, looks);
        self.marks.set(priority, true, changes, looks);
        self.len += 1;
    }

    /// The item that goes first leaves, if there is one. Its node is then in no list.
    pub fn take<T: Ranked, L: Ledger, M: Ledger>(
        &mut self,
        table: &mut Table<T>,
        changes: &mut Steps<L>,
        looks: &mut Steps<M>,
    ) -> Option<usize>
        requires of { IsLineOf T.rank table.old self.old }
        ensures of { IsLineOf T.rank table.new self.new }
        ensures first { result ≡ slice_get (nodes_in table.old self.old) 0 }
        ensures rest { nodes_in table.new self.new ≡ drop 1 (nodes_in table.old self.old) }
        ensures none { IfNone result (table.new ≡ table.old) }
        ensures freed { IfSome result (IsFree table.new) }
        ensures elsewhere { SameElsewhere table.old table.new self.old }
        ensures own { self.new.lists ≡ self.old.lists }
        ensures changes { changes.new ≡ changes.old + (if is_some result then 3 else 0) }
        ensures looks { MatchOption result (looks.new ≡ looks.old + WORDS) (λ node. looks.new ≡ looks.old + words_down_to (rank_at T.rank table.old node) + 7) }
        ensures few_changes { changes.new ≤ changes.old + 8 }
        ensures few_looks { looks.new ≤ looks.old + 16 }
    {
        let priority = self.marks.highest(looks)?;
        let Some(node) = table.pop_front(self.lists[priority], changes, looks) else {
            assert_unchecked(false);
            unreachable!();
        };
        self.mark(table, priority, changes, looks);
        self.len -= 1;
        Some(node)
    }

    /// An item leaves before its turn, as one that is unblocked does. Its node is then in no list.
    pub fn remove<T: Ranked, L: Ledger, M: Ledger>(
        &mut self,
        table: &mut Table<T>,
        node: usize,
        changes: &mut Steps<L>,
        looks: &mut Steps<M>,
    )
        requires of { IsLineOf T.rank table.old self.old }
        requires in_line { IsInLine table.old self.old node }
        ensures of { IsLineOf T.rank table.new self.new }
        ensures removed { nodes_in table.new self.new ≡ without node (nodes_in table.old self.old) }
        ensures freed { IsFree table.new node }
        ensures elsewhere { SameElsewhere table.old table.new self.old }
        ensures own { self.new.lists ≡ self.old.lists }
        ensures changes { changes.new ≡ changes.old + 3 }
        ensures looks { looks.new ≡ looks.old + 5 }
        ensures few_changes { changes.new ≤ changes.old + 8 }
        ensures few_looks { looks.new ≤ looks.old + 16 }
    {
        table.know();
        let priority = priority_of(table, node);
        table.unlink(self.lists[priority], node, changes, looks);
        self.mark(table, priority, changes, looks);
        self.len -= 1;
    }

    /// The item that goes first, which stays.
    pub fn first<T: Ranked, L: Ledger, M: Ledger>(
        &self,
        table: &Table<T>,
        changes: &mut Steps<L>,
        looks: &mut Steps<M>,
    ) -> Option<usize>
        requires { IsLineOf T.rank table.now self.now }
        ensures first { result ≡ slice_get (nodes_in table.now self.now) 0 }
        ensures changes { changes.new ≡ changes.old }
        ensures looks { MatchOption result (looks.new ≡ looks.old + WORDS) (λ node. looks.new ≡ looks.old + words_down_to (rank_at T.rank table.now node) + 2) }
        ensures few_looks { looks.new ≤ looks.old + 16 }
    {
        let priority = self.marks.highest(looks)?;
        table.first(self.lists[priority], changes, looks)
    }

    /// How many items there are.
    pub fn len(&self) -> usize
        ensures { result ≡ item_count self.now }
    {
        self.len
    }

    // Marks a priority if it has items, else takes its mark away.
    fn mark<T: Ranked, L: Ledger, M: Ledger>(
        &mut self,
        table: &Table<T>,
        priority: usize,
        changes: &mut Steps<L>,
        looks: &mut Steps<M>,
    )
        requires within { priority < PRIORITIES }
        requires list { ContainsList table.now (list_of self.old priority) }
        ensures marked { IsRemarked self.old self.new priority (is_some (slice_get (nodes_of table.now (list_of self.old priority)) 0)) }
        ensures changes { changes.new ≡ changes.old + 1 }
        ensures looks { looks.new ≡ looks.old + 3 }
    {
        let has_items = table.first(self.lists[priority], changes, looks).is_some();
        self.marks.set(priority, has_items, changes, looks);
    }
}

// The priority of a node's value.
fn priority_of<T: Ranked>(table: &Table<T>, node: usize) -> usize
    requires { ContainsNode table.now node }
    ensures rank { result ≡ rank_at T.rank table.now node }
    ensures within { result < PRIORITIES }
{
    table.value(node).prio().0 as usize
}

// Makes an empty list for each place from one on. Where memory ends, those that were made go again.
fn add_lists<T>(table: &mut Table<T>, lists: &mut [usize], from: usize) -> Result<(), AllocError>
    requires { from ≤ length lists.old }
    ensures made { IfOk result (λ _. table.new ≡ record table.old { lists = with_empty table.old.lists (drop from lists.new) }) }
    ensures were_new { IfOk result (λ _. AreNew table.old.lists (drop from lists.new)) }
    ensures err { OnErr result (table.new ≡ table.old) }
{
    if from == lists.len() {
        return Ok(());
    }
    let list = table.add_list()?;
    match add_lists(table, lists, from + 1) {
        Ok(()) => {
            lists[from] = list;
            Ok(())
        }
        Err(error) => {
            table.free_list(list);
            Err(error)
        }
    }
}
