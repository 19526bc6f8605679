ghost use Rattle.std.specs.Prelude.{◌≡◌, ℕ, ◌+◌, ◌-◌, ◌<◌, ◌≤◌, ◌==◌, ◌++◌, ◌^◌, [], ◌∷◌, None, Ok, Some, IfOk, IfSome, OnOk, OnErr, OnSome, IsOk, IsSome, drop, filter, length, max, not, option_map, slice_get, slice_set, take, if◌then◌else◌};
ghost use Rattle.std.specs.Option.{option_copied};
ghost use Rattle.std.specs.Result.{result_map_both};
ghost use Rattle.qx_attr.specs.Counts.{with_number};
ghost use Rattle.qx_attr.specs.Flags.{block_for};
ghost use Rattle.qx_machine.specs.Attributes.{stat_bytes};
ghost use Rattle.qx_machine.specs.Inodes as machine;
ghost use Rattle.qx_machine.specs.Waiting.{sides_of};
ghost use Rattle.qx_isolation.specs.Rows.{lowest_from, put_row, row_at};
ghost use Rattle.qx_types.specs.declared.limits.TheConstants.Limits.{BLOCKS, INODES};

use crate::attr::Attr;
use crate::blocks::Blocks;
use crate::status::{Status, stat_bytes};
use bitflags::Flags;
use qx_hint::as_mut_unchecked;
use qx_machine::{Attribute, Client, Ocb, Sides};
use qx_rows::{growth, places};
use qx_types::{Errno, Limits, OFlags};
use std::alloc::{AllocError, Global};
use std::marker::Model;

/// The inodes and open control blocks of one user, at all managers, each under the lowest free number from 1, the blocks in
/// order of making. At most 1,024 inodes and 256 blocks (Writing a Resource Manager: `iofunc_attr_t`, `iofunc_ocb_t`; that
/// each user has numbers of their own is this profile).
#[derive(Drop)]
pub struct Inodes {
    attrs: Vec<Option<Attr>>,
    // Their room is that for inodes too.
    blocks: Blocks,
    // How many of both there may be.
    most_inodes: usize,
    most_blocks: usize,
}

impl Model for Inodes {
    ghost use Rattle.std.specs.Prelude.{◌+◌, ◌*◌, ◌≤◌, length, map, vec_len, vec_capacity};
    ghost use Rattle.qx_attr.specs.inner.Counts.{AreCounted, attribute_of};
    ghost use Rattle.qx_attr.specs.Counts.{Reserved};
    ghost use Rattle.qx_types.specs.declared.limits.TheConstants.Limits.{BLOCKS, INODES};

    ghost Value = { Reserved };

    ghost view = { λ i. record {
      inodes = record { attributes = map attribute_of i.attrs.items; blocks = i.blocks.rows; made = i.blocks.made; most_inodes = i.most_inodes; most_blocks = i.most_blocks };
      room = i.blocks.room;
    } };

    ghost invariant = { λ i. record {
      counted : AreCounted i.attrs.items i.blocks.rows;
      few : length i.blocks.rows ≤ BLOCKS + 1;
      few_inodes : length i.attrs.items ≤ INODES + 1;
      own_inodes : i.most_inodes ≤ INODES;
      own_blocks : i.most_blocks ≤ BLOCKS;
      numbers : vec_len i.attrs + i.blocks.room ≤ vec_capacity i.attrs;
      no_more : vec_capacity i.attrs ≤ 2 * length i.attrs.items + 2;
    } };
}

impl Inodes {
    /// None, of which there may be so many.
    pub fn new(most_inodes: usize, most_blocks: usize, alloc: Global) -> Result<Self, AllocError>
        requires inodes { most_inodes ≤ INODES }
        requires blocks { most_blocks ≤ BLOCKS }
        ensures none { IfOk result (λ inodes. inodes ≡ record { inodes = machine.none_of most_inodes most_blocks; room = 0 }) }
    {
        Ok(Inodes {
            attrs: places::empty(alloc)?,
            blocks: Blocks::new(alloc)?,
            most_inodes,
            most_blocks,
        })
    }

    /// An inode's attribute, and its three counts.
    pub fn attr(&self, inode: u32) -> Option<&Attr>
        ensures attribute { option_map (λ attr. attr.attribute) (option_copied result) ≡ row_at self.now.inodes.attributes inode }
        ensures blocks { IfSome result (λ attr. attr.now.blocks ≡ machine.blocks_of self.now.inodes inode) }
        ensures readers { IfSome result (λ attr. attr.now.readers ≡ machine.readers_of self.now.inodes inode) }
        ensures writers { IfSome result (λ attr. attr.now.writers ≡ machine.writers_of self.now.inodes inode) }
    {
        places::row(self.attrs.as_slice(), inode as usize)
    }

    /// Tells that inodes are numbered up to 1,024, and open control blocks up to 256.
    pub fn numbered(&self)
        ensures few { length self.now.inodes.attributes ≤ INODES + 1 }
        ensures blocks { length self.now.inodes.blocks ≤ BLOCKS + 1 }
        ensures most_inodes { self.now.inodes.most_inodes ≤ INODES }
        ensures most_blocks { self.now.inodes.most_blocks ≤ BLOCKS }
    {
        let _count = self.attrs.len();
    }

    /// Tells that the inode of each open control block is there.
    pub fn opened(&self)
        ensures there { (number : ℕ) (block : Ocb) → row_at self.now.inodes.blocks number ≡ Some block → IsSome (row_at self.now.inodes.attributes block.inode) }
    {
        let _count = self.attrs.len();
    }

    /// For which sides an inode has open control blocks; none where there is no inode.
    pub fn sides(&self, inode: u32) -> Sides
        ensures { result ≡ sides_of self.now.inodes inode }
    {
        match places::row(self.attrs.as_slice(), inode as usize) {
            Some(attr) => Sides {
                for_reading: attr.readers != 0,
                for_writing: attr.writers != 0,
            },
            None => Sides {
                for_reading: false,
                for_writing: false,
            },
        }
    }

    /// An open control block.
    pub fn block(&self, number: u16) -> Option<&Ocb>
        ensures block { option_copied result ≡ row_at self.now.inodes.blocks number }
    {
        self.blocks.get(number)
    }

    /// The number of an open control block that a client has, by its place among those, in order of making. No other place has
    /// that number.
    pub fn of_client(&self, client: Client, place: usize) -> Option<u16>
        ensures number { result ≡ slice_get (machine.blocks_of_client self.now.inodes client) place }
        ensures once { IfSome result (λ number. filter (λ other. not (other == number)) (machine.blocks_of_client self.now.inodes client) ≡ take place (machine.blocks_of_client self.now.inodes client) ++ drop (place + 1) (machine.blocks_of_client self.now.inodes client)) }
        ensures next { OnSome result (place + 1 < 2 ^ 64) }
    {
        self.blocks.of_client(client, place)
    }

    /// An open control block that was opened with a flag, else EBADF.
    pub fn block_for(&self, number: u16, flag: OFlags) -> Result<Ocb, Errno>
        ensures { result ≡ block_for self.now.inodes number flag }
    {
        match self.block(number) {
            Some(block) if block.flags.contains(flag) => Ok(*block),
            _ => Err(Errno::EBADF),
        }
    }

    /// Makes room for `count` more inodes and as many more open control blocks: at most 2, which is what an open makes.
    pub fn reserve(&mut self, count: usize) -> Result<(), AllocError>
        requires few { count ≤ 2 }
        ensures ok { OnOk result (self.new ≡ record self.old { room = max self.old.room count }) }
        ensures err { OnErr result (self.new ≡ self.old) }
        ensures had_room { count ≤ self.old.room → IsOk result }
    {
        growth::reserve(&mut self.attrs, count)?;
        self.blocks.reserve(count)
    }

    /// The number of the next inode, the lowest free one, or ENOSPC.
    pub fn inode_number(&self) -> Result<u32, Errno>
        ensures number { result ≡ machine.inode_number self.now.inodes }
        ensures free { IfOk result (λ number. row_at self.now.inodes.attributes number ≡ None) }
    {
        let number = self.free_number();
        if number <= self.most_inodes {
            Ok(number as u32)
        } else {
            Err(Errno::ENOSPC)
        }
    }

    fn free_number(&self) -> usize
        ensures number { result ≡ lowest_from 1 self.now.inodes.attributes }
        ensures free { row_at self.now.inodes.attributes result ≡ None }
    {
        places::lowest_free(self.attrs.as_slice(), 1)
    }

    /// The number of the next open control block, the lowest free one, or ENFILE.
    pub fn block_number(&self) -> Result<u16, Errno>
        ensures number { result ≡ machine.block_number self.now.inodes }
        ensures free { IfOk result (λ number. row_at self.now.inodes.blocks number ≡ None) }
        ensures lowest { IfOk result (λ number. number ≡ lowest_from 1 self.now.inodes.blocks) }
    {
        let number = self.blocks.free_number();
        if number <= self.most_blocks {
            Ok(number as u16)
        } else {
            Err(Errno::ENFILE)
        }
    }

    /// Makes an inode, which nothing has open, under the lowest free number: ENOSPC where the user has 1,024 (Writing a
    /// Resource Manager: `iofunc_attr_init`). Where an error comes or memory is short, nothing changes.
    pub fn new_inode(&mut self, attribute: Attribute) -> Result<Result<u32, Errno>, AllocError>
        ensures made { IfOk result (λ given. with_number self.new.inodes given ≡ machine.new_inode self.old.inodes attribute) }
        ensures room { IfOk result (λ given. OnOk given (self.new.room ≡ self.old.room - 1)) }
        ensures kept { IfOk result (λ given. OnErr given (self.new ≡ self.old)) }
        ensures err { OnErr result (self.new ≡ self.old) }
        ensures judged { OnErr result (IsOk (machine.new_inode self.old.inodes attribute)) }
        ensures sure { 0 < self.old.room → IsOk result }
    {
        match self.inode_number() {
            Ok(number) => {
                self.reserve(1)?;
                self.add_inode(number, attribute);
                Ok(Ok(number))
            }
            Err(errno) => Ok(Err(errno)),
        }
    }

    /// Opens an inode for a client: a block at offset 0 under the lowest free number, ENFILE where the user has 256 (Writing
    /// a Resource Manager: `iofunc_ocb_attach`). Where an error comes or memory is short, nothing changes.
    pub fn open_block(
        &mut self,
        inode: u32,
        flags: OFlags,
        client: Client,
    ) -> Result<Result<u16, Errno>, AllocError>
        requires there { IsSome (row_at self.old.inodes.attributes inode) }
        ensures opened { IfOk result (λ given. with_number self.new.inodes given ≡ machine.open_block self.old.inodes inode flags client) }
        ensures room { IfOk result (λ given. OnOk given (self.new.room ≡ self.old.room - 1)) }
        ensures kept { IfOk result (λ given. OnErr given (self.new ≡ self.old)) }
        ensures err { OnErr result (self.new ≡ self.old) }
        ensures judged { OnErr result (IsOk (machine.open_block self.old.inodes inode flags client)) }
        ensures sure { 0 < self.old.room → IsOk result }
    {
        match self.block_number() {
            Ok(number) => {
                self.reserve(1)?;
                self.add_block(number, inode, flags, client);
                Ok(Ok(number))
            }
            Err(errno) => Ok(Err(errno)),
        }
    }

    /// Makes an inode as `new_inode` does, under the number that `inode_number` gave; there is room for it.
    pub fn add_inode(&mut self, number: u32, attribute: Attribute)
        requires room { 0 < self.old.room }
        requires number { machine.inode_number self.old.inodes ≡ Ok number }
        ensures made { with_number self.new.inodes (Ok number) ≡ machine.new_inode self.old.inodes attribute }
        ensures room { self.new.room ≡ self.old.room - 1 }
    {
        places::put_reserved(&mut self.attrs, number as usize, Attr::new(attribute));
        self.blocks.give_up_room();
    }

    /// Opens an inode for a client as `open_block` does, under the number that `block_number` gave; there is room for it.
    pub fn add_block(&mut self, number: u16, inode: u32, flags: OFlags, client: Client)
        requires there { IsSome (row_at self.old.inodes.attributes inode) }
        requires room { 0 < self.old.room }
        requires number { machine.block_number self.old.inodes ≡ Ok number }
        ensures opened { with_number self.new.inodes (Ok number) ≡ machine.open_block self.old.inodes inode flags client }
        ensures room { self.new.room ≡ self.old.room - 1 }
    {
        let block = Ocb {
            inode,
            flags,
            offset: 0,
            uses: 1,
            client,
        };
        self.numbered();
        self.put_block(number, block);
    }

    /// Gives an inode another attribute.
    pub fn set_attribute(&mut self, inode: u32, attribute: Attribute)
        requires there { IsSome (row_at self.old.inodes.attributes inode) }
        ensures set { self.new ≡ record self.old { inodes = machine.with_attribute self.old.inodes inode attribute } }
    {
        as_mut_unchecked(&mut self.attrs[inode as usize]).attribute = attribute;
    }

    /// Moves an open control block to another offset, if it is there.
    pub fn set_offset(&mut self, number: u16, offset: u64)
        ensures moved { self.new ≡ record self.old { inodes = machine.with_offset self.old.inodes number offset } }
    {
        self.blocks.set_offset(number, offset);
    }

    /// One more connection has an open control block (Writing a Resource Manager: `io_dup`; C Library Reference: `dup`).
    /// EBADF where it is not there, and EMFILE where as many connections have it as a process can have, which no process
    /// comes to. Where an error comes, nothing changes.
    pub fn dup_block(&mut self, number: u16) -> Result<(), Errno>
        ensures shared { result_map_both (λ _. self.new.inodes) (λ error. error) result ≡ machine.dup_block self.old.inodes number }
        ensures room { self.new.room ≡ self.old.room }
        ensures err { OnErr result (self.new ≡ self.old) }
    {
        let Some(block) = self.block(number).copied() else {
            return Err(Errno::EBADF);
        };
        if block.uses as usize >= Limits::LAST_CONNECTION {
            return Err(Errno::EMFILE);
        }
        let uses = block.uses + 1;
        self.set_block(number, Ocb { uses, ..block });
        Ok(())
    }

    /// One connection less has an open control block, if others have it too, and tells whether they have (Writing a Resource
    /// Manager: `iofunc_close_dup`). Else nothing changes.
    pub fn close_dup(&mut self, number: u16) -> bool
        ensures shared { result ≡ machine.is_shared (row_at self.old.inodes.blocks number) }
        ensures left { self.new ≡ (if machine.is_shared (row_at self.old.inodes.blocks number) then record self.old { inodes = machine.without_use self.old.inodes number } else self.old) }
    {
        match self.block(number).copied() {
            Some(block) if block.uses > 1 => {
                let uses = block.uses - 1;
                self.set_block(number, Ocb { uses, ..block });
                true
            }
            _ => false,
        }
    }

    /// Changes an open control block, but not what it has open nor for what.
    fn set_block(&mut self, number: u16, block: Ocb)
        requires inode { option_map (λ was. was.inode) (row_at self.old.inodes.blocks number) ≡ Some block.inode }
        requires flags { option_map (λ was. was.flags) (row_at self.old.inodes.blocks number) ≡ Some block.flags }
        ensures { self.new ≡ record self.old { inodes = record self.old.inodes { blocks = slice_set self.old.inodes.blocks number (Some block) } } }
    {
        self.blocks.set(number, block);
    }

    /// Takes an open control block away, if it is there; its inode's counts fall (Writing a Resource Manager:
    /// `iofunc_close_ocb`).
    pub fn close_block(&mut self, number: u16)
        ensures closed { self.new ≡ record self.old { inodes = machine.close_block self.old.inodes number } }
    {
        let Some(block) = self.blocks.remove(number) else {
            return;
        };
        let attr = *places::there(self.attrs.as_slice(), block.inode as usize);
        self.attrs[block.inode as usize] = Some(attr.uncounted(block.flags));
    }

    /// Frees an inode, with its number, if nothing names it and nothing has it open, and tells whether that is so.
    pub fn free_inode(&mut self, inode: u32) -> bool
        ensures unused { result ≡ machine.is_unused self.old.inodes inode (row_at self.old.inodes.attributes inode) }
        ensures freed { self.new ≡ record self.old { inodes = machine.free_inode self.old.inodes inode } }
    {
        let is_unused = self.is_unused(inode);
        if is_unused {
            self.take_inode(inode);
        }
        is_unused
    }

    fn is_unused(&self, inode: u32) -> bool
        ensures { result ≡ machine.is_unused self.now.inodes inode (row_at self.now.inodes.attributes inode) }
    {
        match self.attr(inode) {
            Some(attr) => attr.attribute.links == 0 && attr.blocks == 0,
            None => false,
        }
    }

    /// Takes an inode that nothing has open out of the table.
    fn take_inode(&mut self, inode: u32)
        requires unopened { machine.blocks_of self.old.inodes inode ≡ 0 }
        ensures { self.new ≡ record self.old { inodes = record self.old.inodes { attributes = slice_set self.old.inodes.attributes inode None } } }
    {
        places::free(&mut self.attrs, inode as usize);
    }

    /// The 40 bytes that a stat tells of an inode (Writing a Resource Manager: `iofunc_stat`; the layout is this profile).
    pub fn stat_of(&self, inode: u32) -> Option<Status>
        ensures status { option_map (λ status. status.items) result ≡ option_map (stat_bytes inode) (row_at self.now.inodes.attributes inode) }
    {
        let attr = self.attr(inode)?;
        Some(stat_bytes(inode, &attr.attribute))
    }

    /// Puts an open control block under the lowest free number, for which there is room, and counts it.
    fn put_block(&mut self, number: u16, block: Ocb)
        requires room { 0 < self.old.room }
        requires few { number ≤ BLOCKS }
        requires lowest { number ≡ lowest_from 1 self.old.inodes.blocks }
        requires there { IsSome (row_at self.old.inodes.attributes block.inode) }
        ensures { self.new ≡ record { inodes = record self.old.inodes { blocks = put_row self.old.inodes.blocks number block; made = self.old.inodes.made ++ number ∷ [] }; room = self.old.room - 1 } }
    {
        self.blocks.put(number, block);
        let attr = *places::there(self.attrs.as_slice(), block.inode as usize);
        self.attrs[block.inode as usize] = Some(attr.counted(block.flags));
    }
}
