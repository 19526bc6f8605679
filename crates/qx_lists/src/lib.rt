//! Many doubly linked lists in one table of nodes, shared by all users of the table.
//!
//! A list and a node are named by numbers. A node has a value and stands in at most one list.
//!
//! `Table` stands here, over the links of `rings.rt`: each list is a ring through the list itself, whose links are its
//! first and its last node, so taking a node out is one `join` and putting one in is two, with no case for the ends.
//! All writes of links stand in two functions there, and all reads in one.
//!
//! How much work a call is stands in its contract: two `Steps` (`steps.rt`) tick where `rings.rt` changes a link and where
//! it looks at one. A link is a node's next or previous one, or a list's first or last; lengths and values are not counted.
//! A caller that counts nothing makes the same calls through `qx_uncounted`.
//!
//! What contracts see is `Table.antt`, and of a value that is lent `Lends.antt`. A caller uses the ruleset
//! `table_facts` (`proofs/TableFacts.antt`): named in `using(..)`, calls in a row need no answer, as `linked` in
//! `test_lower`. What it speaks of stays closed to the prover: `StandsNowhere`, which `stands_nowhere` and
//! `nowhere_from` open and close.
#![tactic(auto)]

ghost use Rattle.std.specs.Prelude.{◌≡◌, ◌+◌, ◌-◌, ◌≤◌, ◌<◌, ◌^◌, ◌++◌, ◌∷◌, ℕ, List, [], None, Some, if◌then◌else◌, is_some, IfOk, IfErr, IfSome, OnOk, OnErr, IsOk, max, drop, length, slice_get, nat_eq};
ghost use Rattle.std.specs.List.{IsDistinct};
ghost use Rattle.std.specs.FinMap as map;
ghost use Rattle.std.specs.Borrow.{sem};
ghost use Rattle.slab.specs.Slab.{HasRoomFor};
ghost use Rattle.qx_lists.specs.Shows.{Lists, ShowsLists, shown_once};
ghost use Rattle.qx_lists.specs.Table.{ContainsList, ContainsNode, IsFree, IsIn, IsPlace, nodes_of, with_nodes, without, put_before, next_after};
ghost use Rattle.qx_lists.specs.inner.Table.{placed};

mod rings;
mod steps;

use rings::{Links, Node, Rings};
use slab::Slab;
use std::alloc::{AllocError, AllocFailed, Global};
use std::marker::Model;
use std::sync::ledger::Ledger;
pub use steps::Steps;

/// Many doubly linked lists in one table of nodes.
#[derive(Drop)]
pub struct Table<T> {
    rings: Rings<T>,
    // How many more nodes can be made with no memory.
    room: usize,
    ghost kept: { (lists : Lists) × ShowsLists rings lists } by { shown_once rings },
    ghost has_room: { HasRoomFor rings.nodes room },
}

impl<T> Model for Table<T> {
    ghost use Rattle.qx_lists.specs.Table.{Table as Contents, table_code};

    ghost Value = { Contents T };

    ghost coded = { table_code T.code };

    ghost use Rattle.qx_lists.specs.Shows.{node_values, shown_lists};

    ghost view = { λ t. record {
      lists = shown_lists t.rings t.kept;
      values = node_values t.rings.nodes;
      room = t.room;
    } };
}

impl<T> Table<T> {
    ghost use Rattle.qx_lists.specs.Lends.{lends_value};

    /// A table with no list and no node, which allocates nothing.
    pub fn new(alloc: Global) -> Self
        ensures { result ≡ record { lists = map.empty; values = map.empty; room = 0 } }
    {
        Table {
            rings: Rings {
                nodes: Slab::new(alloc),
                lists: Slab::new(alloc),
            },
            room: 0,
        }
    }

    /// Makes room for `count` more nodes, so that as many calls of `new_node` need no memory.
    pub fn reserve(&mut self, count: usize) -> Result<(), AllocError>
        ensures ok { OnOk result (self.new ≡ record self.old { room = max self.old.room count }) }
        ensures err { OnErr result (self.new ≡ self.old) }
        ensures had_room { count ≤ self.old.room → IsOk result }
    {
        if count > self.room {
            self.rings.nodes.reserve(count)?;
            self.room = count;
        }
        Ok(())
    }

    /// Makes a node in no list, or hands its value back where there is no memory.
    pub fn new_node(&mut self, value: T) -> Result<usize, AllocFailed<T>>
        ensures made { IfOk result (λ node. self.new ≡ record self.old { values = map.insert self.old.values node value; room = self.old.room - 1 }) }
        ensures was_new { IfOk result (λ node. map.get self.old.values node ≡ None) }
        ensures free { IfOk result (IsFree self.new) }
        ensures err { OnErr result (self.new ≡ self.old) }
        ensures value_returned { IfErr result (λ failed. failed.value ≡ value) }
        ensures had_room { 0 < self.old.room → IsOk result }
    {
        let Ok(()) = self.reserve(1) else {
            return Err(AllocFailed { value });
        };
        self.room -= 1;
        let node = Node {
            value,
            links: Links::ALONE,
        };
        Ok(self.rings.nodes.insert_reserved(node))
    }

    /// Frees a node that stands in no list, and gives its value back. Its room is there again.
    pub fn free_node(&mut self, node: usize) -> T
        requires { IsFree self.old node }
        ensures value { map.get self.old.values node ≡ Some result }
        ensures freed { self.new ≡ record self.old { values = map.remove self.old.values node; room = self.old.room + 1 } }
    {
        let Node { value, links: _ } = self.rings.nodes.remove(node);
        let capacity = self.rings.nodes.capacity();
        prove!(self.room < capacity);
        self.room += 1;
        value
    }

    /// Makes an empty list, whose number stays its own until `free_list`.
    pub fn add_list(&mut self) -> Result<usize, AllocError>
        ensures made { IfOk result (λ list. self.new ≡ record self.old { lists = map.insert self.old.lists list [] }) }
        ensures was_new { IfOk result (λ list. map.get self.old.lists list ≡ None) }
        ensures err { OnErr result (self.new ≡ self.old) }
    {
        self.rings.lists.reserve(1)?;
        Ok(self.rings.lists.insert_reserved(Links::ALONE))
    }

    /// Frees an empty list.
    pub fn free_list(&mut self, list: usize)
        requires { map.get self.old.lists list ≡ Some [] }
        ensures { self.new ≡ record self.old { lists = map.remove self.old.lists list } }
    {
        self.rings.lists.remove(list);
    }

    /// The value of a node.
    pub fn value(&self, node: usize) -> &T
        requires { ContainsNode self.now node }
        ensures { map.get self.now.values node ≡ Some result.now }
    {
        &self.rings.node(node).value
    }

    /// The value of a node, for writing.
    pub fn value_mut(&mut self, node: usize) -> &mut T
        requires { ContainsNode self.old node }
        ensures* writes_back { sem 𝓛 (lends_value T.row self.entry node result) }
        ensures value { map.get self.old.values node ≡ Some result.now }
    {
        self.rings.value_mut(node)
    }

    /// The first node of the list.
    pub fn first<L: Ledger, M: Ledger>(
        &self,
        list: usize,
        changes: &mut Steps<L>,
        looks: &mut Steps<M>,
    ) -> Option<usize>
        requires { ContainsList self.now list }
        ensures first { result ≡ slice_get (nodes_of self.now list) 0 }
        ensures changes { changes.new ≡ changes.old }
        ensures looks { looks.new ≡ looks.old + 2 }
    {
        let _unchanged = changes;
        self.rings.links(list, None, looks).next
    }

    /// The node right after `node` in the list.
    pub fn next<L: Ledger, M: Ledger>(
        &self,
        list: usize,
        node: usize,
        changes: &mut Steps<L>,
        looks: &mut Steps<M>,
    ) -> Option<usize>
        requires { IsIn self.now list node }
        ensures next { result ≡ next_after node (nodes_of self.now list) }
        ensures changes { changes.new ≡ changes.old }
        ensures looks { looks.new ≡ looks.old + 2 }
    {
        let _unchanged = changes;
        self.rings.links(list, Some(node), looks).next
    }

    /// Puts a free node at the end of the list.
    pub fn push_back<L: Ledger, M: Ledger>(
        &mut self,
        list: usize,
        node: usize,
        changes: &mut Steps<L>,
        looks: &mut Steps<M>,
    )
        requires list { ContainsList self.old list }
        requires free { IsFree self.old node }
        ensures pushed { self.new ≡ with_nodes self.old list (nodes_of self.old list ++ node ∷ []) }
        ensures changes { changes.new ≡ changes.old + 4 }
        ensures looks { looks.new ≡ looks.old + 2 }
    {
        self.link(list, node, None, changes, looks);
    }

    /// Puts a free node into the list right before `at`.
    pub fn insert_before<L: Ledger, M: Ledger>(
        &mut self,
        list: usize,
        at: usize,
        node: usize,
        changes: &mut Steps<L>,
        looks: &mut Steps<M>,
    )
        requires at { IsIn self.old list at }
        requires free { IsFree self.old node }
        ensures inserted { self.new ≡ with_nodes self.old list (put_before node at (nodes_of self.old list)) }
        ensures changes { changes.new ≡ changes.old + 4 }
        ensures looks { looks.new ≡ looks.old + 2 }
    {
        self.link(list, node, Some(at), changes, looks);
    }

    /// Takes a node out of the list.
    pub fn unlink<L: Ledger, M: Ledger>(
        &mut self,
        list: usize,
        node: usize,
        changes: &mut Steps<L>,
        looks: &mut Steps<M>,
    )
        requires { IsIn self.old list node }
        ensures unlinked { self.new ≡ with_nodes self.old list (without node (nodes_of self.old list)) }
        ensures freed { IsFree self.new node }
        ensures changes { changes.new ≡ changes.old + 2 }
        ensures looks { looks.new ≡ looks.old + 2 }
    {
        let links = self.rings.links(list, Some(node), looks);
        self.rings.join(list, links.previous, links.next, changes);
    }

    /// Takes the first node out of the list.
    pub fn pop_front<L: Ledger, M: Ledger>(
        &mut self,
        list: usize,
        changes: &mut Steps<L>,
        looks: &mut Steps<M>,
    ) -> Option<usize>
        requires { ContainsList self.old list }
        ensures first { result ≡ slice_get (nodes_of self.old list) 0 }
        ensures rest { self.new ≡ with_nodes self.old list (drop 1 (nodes_of self.old list)) }
        ensures freed { IfSome result (IsFree self.new) }
        ensures changes { changes.new ≡ changes.old + (if is_some result then 2 else 0) }
        ensures looks { looks.new ≡ looks.old + (if is_some result then 4 else 2) }
    {
        let first = self.first(list, changes, looks)?;
        self.know();
        self.unlink(list, first, changes, looks);
        Some(first)
    }

    /// Tells what holds of every table.
    pub fn know(&self)
        ensures distinct { (list : ℕ) → IsDistinct nat_eq (nodes_of self.now list) }
        ensures apart { (one two node : ℕ) → IsIn self.now one node → IsIn self.now two node → one ≡ two }
        ensures there { (list node : ℕ) → IsIn self.now list node → ContainsNode self.now node }
        ensures bounded { (list : ℕ) → length (nodes_of self.now list) ≤ map.len self.now.values }
        ensures counted { map.len self.now.values < 2 ^ 64 }
    {
        let _count = self.rings.nodes.len();
    }

    // Puts a free node into the list before a place, where `None` is the list's end.
    fn link<L: Ledger, M: Ledger>(
        &mut self,
        list: usize,
        node: usize,
        at: Option<usize>,
        changes: &mut Steps<L>,
        looks: &mut Steps<M>,
    )
        requires place { IsPlace self.old list at }
        requires free { IsFree self.old node }
        ensures linked { self.new ≡ with_nodes self.old list (placed node at (nodes_of self.old list)) }
        ensures changes { changes.new ≡ changes.old + 4 }
        ensures looks { looks.new ≡ looks.old + 2 }
    {
        let before = self.rings.links(list, at, looks).previous;
        self.rings.join(list, before, Some(node), changes);
        self.rings.join(list, Some(node), at, changes);
    }
}
