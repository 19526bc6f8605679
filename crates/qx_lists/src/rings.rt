//! The links of the lists: each list is a ring of places, of which one is the list itself.
ghost use Rattle.std.specs.Prelude.{◌≡◌, ◌+◌, Some, IsSome, option_map};
ghost use Rattle.std.specs.Borrow.{sem};
ghost use Rattle.slab.specs.Slab.{get, ContainsKey};
ghost use Rattle.qx_lists.specs.Rings.{links_at, with_next, with_previous, with_adjacent};

use crate::steps::Steps;
use qx_hint::{assert_unchecked, unwrap_unchecked};
use slab::Slab;
use std::sync::ledger::Ledger;

/// The places next to a place of a ring. `None` is the place of the list itself.
#[derive(Clone, Copy)]
pub(crate) struct Links {
    pub(crate) next: Option<usize>,
    pub(crate) previous: Option<usize>,
}

impl Links {
    /// The links of a place that is alone in its ring.
    pub(crate) const ALONE: Links = Links {
        next: None,
        previous: None,
    };
}

#[derive(Drop)]
pub(crate) struct Node<T> {
    pub(crate) value: T,
    pub(crate) links: Links,
}

#[derive(Drop)]
pub(crate) struct Rings<T> {
    pub(crate) nodes: Slab<Node<T>>,
    pub(crate) lists: Slab<Links>,
}

impl<T> Rings<T> {
    ghost use Rattle.qx_lists.specs.inner.RingLends.{lends_links, lends_ring_value};

    /// The links of a place of the list's ring, which are two looks.
    pub(crate) fn links<M: Ledger>(
        &self,
        list: usize,
        place: Option<usize>,
        looks: &mut Steps<M>,
    ) -> Links
        requires { IsSome (links_at self.now list place) }
        ensures links { links_at self.now list place ≡ Some result }
        ensures looks { looks.new ≡ looks.old + 2 }
    {
        looks.tick();
        looks.tick();
        match place {
            None => *self.list(list),
            Some(node) => self.node(node).links,
        }
    }

    /// Makes `after` come right after `before` in the list's ring, which are two changes.
    pub(crate) fn join<L: Ledger>(
        &mut self,
        list: usize,
        before: Option<usize>,
        after: Option<usize>,
        changes: &mut Steps<L>,
    )
        requires before { IsSome (links_at self.old list before) }
        requires after { IsSome (links_at self.old list after) }
        ensures joined { self.new ≡ with_adjacent self.old list before after }
        ensures changes { changes.new ≡ changes.old + 2 }
    {
        self.set_next(list, before, after, changes);
        self.set_previous(list, after, before, changes);
    }

    /// A node that is there.
    pub(crate) fn node(&self, node: usize) -> &Node<T>
        requires there { ContainsKey self.now.nodes node }
        ensures node { get self.now.nodes node ≡ Some result.now }
    {
        unwrap_unchecked(self.nodes.get(node))
    }

    /// The links of a list that is there.
    fn list(&self, list: usize) -> &Links
        requires there { ContainsKey self.now.lists list }
        ensures links { get self.now.lists list ≡ Some result.now }
    {
        unwrap_unchecked(self.lists.get(list))
    }

    /// The value of a node, for writing.
    pub(crate) fn value_mut(&mut self, node: usize) -> &mut T
        requires { ContainsKey self.old.nodes node }
        ensures* writes_back { sem 𝓛 (lends_ring_value T.row self.entry node result) }
        ensures value { option_map (λ n. n.value) (get self.old.nodes node) ≡ Some result.now }
    {
        let Some(node) = self.nodes.get_mut(node) else {
            assert_unchecked(false);
            unreachable!();
        };
        &mut node.value
    }

    /// The links of a place of a list's ring, for writing.
    fn links_mut(&mut self, list: usize, place: Option<usize>) -> &mut Links
        requires there { IsSome (links_at self.old list place) }
        ensures* writes_back { sem 𝓛 (lends_links T.row self.entry list place result) }
        ensures links { links_at self.old list place ≡ Some result.now }
    {
        match place {
            None => {
                let Some(links) = self.lists.get_mut(list) else {
                    assert_unchecked(false);
                    unreachable!();
                };
                links
            }
            Some(node) => {
                let Some(node) = self.nodes.get_mut(node) else {
                    assert_unchecked(false);
                    unreachable!();
                };
                &mut node.links
            }
        }
    }

    fn set_next<L: Ledger>(
        &mut self,
        list: usize,
        place: Option<usize>,
        next: Option<usize>,
        changes: &mut Steps<L>,
    )
        requires { IsSome (links_at self.old list place) }
        ensures set { self.new ≡ with_next self.old list place next }
        ensures changes { changes.new ≡ changes.old + 1 }
    {
        changes.tick();
        self.links_mut(list, place).next = next;
    }

    fn set_previous<L: Ledger>(
        &mut self,
        list: usize,
        place: Option<usize>,
        previous: Option<usize>,
        changes: &mut Steps<L>,
    )
        requires { IsSome (links_at self.old list place) }
        ensures set { self.new ≡ with_previous self.old list place previous }
        ensures changes { changes.new ≡ changes.old + 1 }
    {
        changes.tick();
        self.links_mut(list, place).previous = previous;
    }
}
