ghost use Rattle.std.specs.Prelude.{◌≡◌, ◌+◌, ◌-◌, ◌<◌, ◌≤◌, ◌==◌, ◌++◌, ◌^◌, [], ◌∷◌, None, Some, IfOk, IfSome, OnOk, OnErr, OnSome, IsOk, drop, filter, max, not, slice_get, slice_set, take, vec_len, vec_capacity};
ghost use Rattle.std.specs.Option.{option_copied};
ghost use Rattle.qx_attr.specs.inner.Blocks.{numbers_of};
ghost use Rattle.qx_machine.specs.Inodes.{is_clients, moved_to};
ghost use Rattle.qx_isolation.specs.Rows.{lowest_from, put_row, row_at, with_row};

use qx_hint::{assert_unchecked, unwrap_unchecked};
use qx_machine::{Client, Ocb};
use qx_rows::{growth, places};
use slab::Slab;
use std::alloc::{AllocError, Global};
use std::marker::Model;

/// Open control blocks under numbers from 1, in order of making.
#[derive(Drop)]
pub struct Blocks {
    // At a block's number, its key.
    keys: Vec<Option<usize>>,
    values: Slab<Ocb>,
    // The numbers of the blocks, in order of making.
    made: Vec<u16>,
    // How many more can be put with no memory.
    room: usize,
}

impl Model for Blocks {
    ghost use Rattle.std.specs.Prelude.{◌≡◌, ◌+◌, ◌*◌, ◌<◌, ◌≤◌, count_by, is_some, length, vec_len, vec_capacity};
    ghost use Rattle.slab.specs.Slab.{HasRoomFor, slab_len};
    ghost use Rattle.qx_attr.specs.inner.Blocks.{AreMadeOnce, IsKeyed, NumberedRows, rows_of};

    ghost Value = { NumberedRows };

    ghost view = { λ b. record { rows = rows_of b.values b.keys.items; made = b.made.items; room = b.room } };

    ghost invariant = { λ b. record {
      keyed : IsKeyed b.values b.keys.items;
      held : slab_len b.values ≡ count_by is_some b.keys.items;
      once : AreMadeOnce b.keys.items b.made.items;
      some : 0 < length b.keys.items;
      numbers : vec_len b.keys + b.room ≤ vec_capacity b.keys;
      no_more : vec_capacity b.keys ≤ 2 * length b.keys.items + 2;
      slots : HasRoomFor b.values b.room;
      places : vec_len b.made + b.room ≤ vec_capacity b.made;
    } };
}

impl Blocks {
    /// None.
    pub fn new(alloc: Global) -> Result<Self, AllocError>
        ensures none { IfOk result (λ blocks. blocks ≡ record { rows = None ∷ []; made = []; room = 0 }) }
    {
        Ok(Blocks {
            keys: places::empty(alloc)?,
            values: Slab::new(alloc),
            made: Vec::new(alloc),
            room: 0,
        })
    }

    /// The block of a number.
    pub fn get(&self, number: u16) -> Option<&Ocb>
        ensures row { option_copied result ≡ row_at self.now.rows number }
    {
        let key = *places::row(self.keys.as_slice(), number as usize)?;
        Some(unwrap_unchecked(self.values.get(key)))
    }

    /// The number of a client's block, by its place among the client's. No other place has that number.
    pub fn of_client(&self, client: Client, place: usize) -> Option<u16>
        ensures number { result ≡ slice_get (numbers_of self.now client) place }
        ensures once { IfSome result (λ number. filter (λ other. not (other == number)) (numbers_of self.now client) ≡ take place (numbers_of self.now client) ++ drop (place + 1) (numbers_of self.now client)) }
        ensures next { OnSome result (place + 1 < 2 ^ 64) }
    {
        self.made
            .iter()
            .filter(|number| self.is_of(**number, client))
            .nth(place)
            .copied()
    }

    fn is_of(&self, number: u16, client: Client) -> bool
        ensures { result ≡ is_clients client (row_at self.now.rows number) }
    {
        match self.get(number) {
            Some(block) => block.client == client,
            None => false,
        }
    }

    /// The lowest free number.
    pub fn free_number(&self) -> usize
        ensures number { result ≡ lowest_from 1 self.now.rows }
        ensures free { row_at self.now.rows result ≡ None }
    {
        places::lowest_free(self.keys.as_slice(), 1)
    }

    /// Makes room for `count` more, at most 2.
    pub fn reserve(&mut self, count: usize) -> Result<(), AllocError>
        requires few { count ≤ 2 }
        ensures ok { OnOk result (self.new ≡ record self.old { room = max self.old.room count }) }
        ensures err { OnErr result (self.new ≡ self.old) }
        ensures had_room { count ≤ self.old.room → IsOk result }
    {
        growth::reserve(&mut self.keys, count)?;
        self.values.reserve(count)?;
        growth::reserve(&mut self.made, count)?;
        self.room = self.room.max(count);
        Ok(())
    }

    /// Gives up the room for one.
    pub fn give_up_room(&mut self)
        requires room { 0 < self.old.room }
        ensures room { self.new ≡ record self.old { room = self.old.room - 1 } }
    {
        self.room -= 1;
    }

    /// Puts a block under the lowest free number, as the last one made; there is room for it.
    pub fn put(&mut self, number: u16, block: Ocb)
        requires room { 0 < self.old.room }
        requires lowest { number ≡ lowest_from 1 self.old.rows }
        ensures row { self.new ≡ record { rows = put_row self.old.rows number block; made = self.old.made ++ number ∷ []; room = self.old.room - 1 } }
    {
        let key = self.values.insert_reserved(block);
        places::put_reserved(&mut self.keys, number as usize, key);
        self.made.push_reserved(number);
        self.room -= 1;
    }

    /// Changes the block of a number, if there is one.
    pub fn set(&mut self, number: u16, block: Ocb)
        ensures row { self.new ≡ record self.old { rows = with_row self.old.rows number (λ _. block) } }
    {
        let Some(key) = places::row(self.keys.as_slice(), number as usize).copied() else {
            return;
        };
        self.values[key] = block;
    }

    /// Moves the block of a number to another offset, if it is there.
    pub fn set_offset(&mut self, number: u16, offset: u64)
        ensures moved { self.new ≡ record self.old { rows = with_row self.old.rows number (moved_to offset) } }
    {
        let Some(key) = places::row(self.keys.as_slice(), number as usize).copied() else {
            return;
        };
        let Some(block) = self.values.get_mut(key) else {
            assert_unchecked(false);
            unreachable!();
        };
        block.offset = offset;
    }

    /// Takes the block of a number away, and gives it.
    pub fn remove(&mut self, number: u16) -> Option<Ocb>
        ensures block { result ≡ row_at self.old.rows number }
        ensures row { self.new ≡ record self.old { rows = slice_set self.old.rows number None; made = filter (λ other. not (other == number)) self.old.made } }
    {
        let key = places::row(self.keys.as_slice(), number as usize).copied()?;
        self.keys[number as usize] = None;
        self.made.retain(|other| *other != number);
        Some(self.values.remove(key))
    }
}
