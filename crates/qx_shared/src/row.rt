//! A pipe or a device of a user: the bytes that stand in it, and the numbers of the lists in which calls wait.

ghost use Rattle.std.specs.Prelude.{◌≡◌, ◌≤◌, ◌+◌, ◌++◌, [], IfOk, IfSome, IsSome, None, Some, drop, length, replicate, slice_set, take};
ghost use Rattle.std.specs.Borrow.{sem};
ghost use Rattle.std.specs.Option.{option_copied, option_copied_mut};
ghost use Rattle.qx_isolation.specs.Rows.{row_at};
ghost use Rattle.qx_shared.specs.inner.Lends.{lends_row};
ghost use Rattle.qx_base.specs.Verdict.{left_by};
ghost use Rattle.qx_machine.specs.Verdicts.{may_read, may_write, read_of, write_of};
ghost use Rattle.qx_shared.specs.Row.{PipeRow};
ghost use Rattle.qx_shared.specs.inner.Content.{HasRoom, bytes_in, device_in};
ghost use Rattle.qx_shared.specs.inner.Row.{bytes_at, list_on, row_with_bytes};
ghost use Rattle.qx_types.specs.declared.limits.TheConstants.Limits.{INODES, PIPE, TRANSFER};

use crate::side::Side;
use circular_buffer::HeapCircularBuffer;
use qx_base::{Given, State, Told};
use qx_machine::{Conditions, Sides};
use qx_rows::places;
use qx_types::{Device, Limits};
use std::alloc::{AllocError, Global};
use std::marker::Model;

/// The bytes of a pipe, in a ring, or of a device, in one piece; with room for as many as may stand.
#[derive(Drop)]
enum Content {
    Pipe(HeapCircularBuffer<u8>),
    Device(Device, State),
}

/// Memory for the bytes of a pipe or of a device, of which none stand yet.
#[derive(Drop)]
pub struct Blank {
    content: Content,
}

impl Model for Blank {
    ghost use Rattle.std.specs.Prelude.{◌≡◌, [], Option};
    ghost use Rattle.qx_devices.specs.declared.Device.{Device};
    ghost use Rattle.qx_shared.specs.inner.Content.{HasRoom, bytes_in, device_in};

    ghost Value = { Option Device };

    ghost view = { λ b. device_in b.content };

    ghost invariant = { λ b. (bytes_in b.content ≡ []) × HasRoom b.content };
}

impl Blank {
    /// For a pipe, or for a device.
    pub(crate) fn new(alloc: Global, device: Option<Device>) -> Result<Self, AllocError>
        ensures device { IfOk result (λ blank. blank ≡ device) }
    {
        let content = match device {
            None => Content::Pipe(HeapCircularBuffer::with_capacity(alloc, Limits::PIPE)?),
            Some(device) => Content::Device(device, State::new(alloc)?),
        };
        Ok(Blank { content })
    }
}

/// The bytes that stand, and in which lists calls wait to read and to write.
#[derive(Drop)]
pub struct PipeRow {
    content: Content,
    pub(crate) readers: usize,
    pub(crate) writers: usize,
}

impl Model for PipeRow {
    ghost use Rattle.qx_shared.specs.Row.{PipeRow};
    ghost use Rattle.qx_shared.specs.inner.Content.{HasRoom, bytes_in, device_in};

    ghost Value = { PipeRow };

    ghost view = { λ p. record { device = device_in p.content; bytes = bytes_in p.content; readers = p.readers; writers = p.writers } };

    ghost invariant = { λ p. HasRoom p.content };
}

impl PipeRow {
    /// No bytes, with room for as many as may stand, and the numbers of two lists.
    pub(crate) fn new(blank: Blank, readers: usize, writers: usize) -> Self
        ensures row { result ≡ record { device = blank; bytes = []; readers = readers; writers = writers } }
    {
        let Blank { content } = blank;
        PipeRow {
            content,
            readers,
            writers,
        }
    }

    /// A pipe or a device with no bytes stands there from now on.
    pub(crate) fn renew(&mut self, blank: Blank)
        ensures renewed { self.new ≡ record self.old { device = blank; bytes = [] } }
    {
        let Blank { content } = blank;
        self.content = content;
    }

    /// The device whose row it is; none of a pipe.
    pub(crate) fn device(&self) -> Option<Device>
        ensures device { result ≡ self.now.device }
    {
        match &self.content {
            Content::Pipe(_) => None,
            Content::Device(device, _) => Some(*device),
        }
    }

    /// In which list calls wait on a side.
    pub(crate) fn list(&self, side: Side) -> usize
        ensures list { result ≡ list_on side self.now }
    {
        match side {
            Side::Reading => self.readers,
            Side::Writing => self.writers,
        }
    }

    /// How many bytes stand.
    pub(crate) fn len(&self) -> usize
        ensures count { result ≡ length self.now.bytes }
        ensures within { result ≤ PIPE }
    {
        match &self.content {
            Content::Pipe(ring) => ring.len(),
            Content::Device(_, state) => state.len(),
        }
    }

    // The bytes that stand: those up to the end of the ring's block, and those behind them.
    fn as_slices(&self) -> (&[u8], &[u8])
        ensures bytes { result.0.now ++ result.1.now ≡ self.now.bytes }
        ensures within { length result.0.now + length result.1.now ≤ PIPE }
    {
        match &self.content {
            Content::Pipe(ring) => ring.as_slices(),
            Content::Device(_, state) => (state.as_slice(), [].as_slice()),
        }
    }

    /// So many of the first bytes that stand: those up to the end of the ring's block, and those behind them.
    pub(crate) fn first_bytes(&self, count: usize) -> (&[u8], &[u8])
        requires stand { count ≤ length self.now.bytes }
        ensures bytes { result.0.now ++ result.1.now ≡ take count self.now.bytes }
        ensures within { length result.0.now + length result.1.now ≤ PIPE }
    {
        let (first, second) = self.as_slices();
        if count <= first.len() {
            return (&first[..count], &[]);
        }
        (first, &second[..count - first.len()])
    }

    /// So many of the first bytes that stand go.
    #[inline(always)]
    pub(crate) fn drop_front(&mut self, count: usize)
        requires stand { count ≤ length self.old.bytes }
        ensures rest { self.new ≡ row_with_bytes self.old (drop count self.old.bytes) }
    {
        match &mut self.content {
            Content::Pipe(ring) => ring.truncate_front(ring.len() - count),
            Content::Device(_, state) => state.drop_front(count),
        }
    }

    /// Bytes that fit go in last.
    #[inline(never)]
    pub(crate) fn append(&mut self, bytes: &[u8])
        requires fits { length self.old.bytes + length bytes.now ≤ PIPE }
        ensures appended { self.new ≡ row_with_bytes self.old (self.old.bytes ++ bytes.now) }
    {
        match &mut self.content {
            Content::Pipe(ring) => {
                ring.fill_from_slice(bytes);
            }
            Content::Device(_, state) => state.push(bytes),
        }
    }

    /// The bytes that stand go.
    pub(crate) fn clear(&mut self)
        ensures cleared { self.new ≡ row_with_bytes self.old [] }
    {
        match &mut self.content {
            Content::Pipe(ring) => ring.clear(),
            Content::Device(_, state) => state.clear(),
        }
    }

    /// Which conditions hold, where a pipe has open control blocks for these sides (C Library Reference: `ionotify`).
    pub(crate) fn conditions(&self, sides: Sides) -> Conditions
        ensures input { result.input ≡ may_read self.now.device sides self.now.bytes }
        ensures output { result.output ≡ may_write self.now.device sides self.now.bytes }
    {
        match &self.content {
            Content::Pipe(ring) => Conditions {
                input: ring.len() != 0 || !sides.for_writing,
                output: ring.len() < Limits::PIPE || !sides.for_reading,
            },
            Content::Device(device, state) => Conditions {
                input: device.may_read(state),
                output: device.may_write(state),
            },
        }
    }

    /// A read of a device: what it is told, and the bytes that it is given (Writing a Resource Manager: `io_read`).
    pub(crate) fn read(&mut self, count: u32, given: &mut Given) -> Told
        requires device { IsSome self.old.device }
        requires none { given.old ≡ [] }
        ensures left { record { told = result; bytes = given.new; state = self.new.bytes } ≡ left_by self.old.bytes (read_of self.old.device count self.old.bytes) }
        ensures others { self.new ≡ row_with_bytes self.old self.new.bytes }
    {
        match &mut self.content {
            Content::Pipe(_) => unreachable!(),
            Content::Device(device, state) => {
                let told = device.read(count, state, given);
                given.truncate(count as usize);
                state.know();
                told
            }
        }
    }

    /// A write of bytes to a device: what it is told (Writing a Resource Manager: `io_write`).
    pub(crate) fn write(&mut self, bytes: &[u8]) -> Told
        requires device { IsSome self.old.device }
        requires few { length bytes.now ≤ TRANSFER }
        ensures left { record { told = result; bytes = []; state = self.new.bytes } ≡ left_by self.old.bytes (write_of self.old.device bytes.now self.old.bytes) }
        ensures others { self.new ≡ row_with_bytes self.old self.new.bytes }
    {
        match &mut self.content {
            Content::Pipe(_) => unreachable!(),
            Content::Device(device, state) => {
                let told = device.write(bytes, state);
                state.know();
                told
            }
        }
    }
}

/// The pipes of one user, under the numbers of their inodes, with a place for each.
#[derive(Drop)]
pub struct UserPipes {
    pub(crate) rows: Vec<Option<PipeRow>>,
}

impl Model for UserPipes {
    ghost use Rattle.std.specs.Prelude.{List, Option};
    ghost use Rattle.qx_shared.specs.Row.{PipeRow};

    ghost Value = { List (Option PipeRow) };

    ghost view = { λ p. p.rows.items };
}

impl UserPipes {
    /// None.
    pub(crate) fn new(alloc: Global) -> Result<Self, AllocError>
        ensures none { IfOk result (λ pipes. pipes ≡ replicate (INODES + 1) None) }
    {
        Ok(UserPipes {
            rows: places::free_places(alloc, Limits::INODES + 1)?,
        })
    }

    /// The pipe of an inode.
    pub(crate) fn row(&self, inode: u32) -> Option<&PipeRow>
        ensures row { option_copied result ≡ row_at self.now inode }
    {
        places::row(&self.rows, inode as usize)
    }

    // The pipe of an inode, for writing.
    fn row_mut(&mut self, inode: u32) -> Option<&mut PipeRow>
        ensures* writes_back { sem 𝓛 (lends_row self.entry inode result) }
        ensures row { option_copied_mut result ≡ row_at self.old inode }
    {
        self.rows.get_mut(inode as usize)?.as_mut()
    }

    /// Another pipe has the number of an inode.
    pub(crate) fn set(&mut self, inode: u32, row: PipeRow)
        ensures set { self.new ≡ slice_set self.old inode (Some row) }
    {
        places::set(&mut self.rows, inode as usize, row);
    }

    /// No pipe has the number of an inode any more.
    pub(crate) fn remove(&mut self, inode: u32)
        ensures removed { self.new ≡ slice_set self.old inode None }
    {
        places::free(&mut self.rows, inode as usize);
    }

    /// So many of the first bytes that stand in a pipe go.
    #[inline(always)]
    pub(crate) fn drop_front(&mut self, inode: u32, count: usize)
        requires stand { IfSome (row_at self.old inode) (λ row. count ≤ length row.bytes) }
        ensures rest { IfSome (row_at self.old inode) (λ row. self.new ≡ slice_set self.old inode (Some (row_with_bytes row (drop count row.bytes)))) }
    {
        if let Some(row) = self.row_mut(inode) {
            row.drop_front(count);
        }
    }

    /// Bytes that fit go last into a pipe.
    #[inline(always)]
    pub(crate) fn append(&mut self, inode: u32, bytes: &[u8])
        requires fits { IfSome (row_at self.old inode) (λ row. length row.bytes + length bytes.now ≤ PIPE) }
        ensures appended { IfSome (row_at self.old inode) (λ row. self.new ≡ slice_set self.old inode (Some (row_with_bytes row (row.bytes ++ bytes.now)))) }
    {
        if let Some(row) = self.row_mut(inode) {
            row.append(bytes);
        }
    }

    /// The bytes that stand in a pipe go.
    pub(crate) fn clear(&mut self, inode: u32)
        ensures cleared { IfSome (row_at self.old inode) (λ row. self.new ≡ slice_set self.old inode (Some (row_with_bytes row []))) }
    {
        if let Some(row) = self.row_mut(inode) {
            row.clear();
        }
    }

    /// A pipe or a device with no bytes stands there from now on.
    pub(crate) fn renew(&mut self, inode: u32, blank: Blank)
        ensures renewed { IfSome (row_at self.old inode) (λ row. self.new ≡ slice_set self.old inode (Some (record row { device = blank; bytes = [] }))) }
    {
        if let Some(row) = self.row_mut(inode) {
            row.renew(blank);
        }
    }

    /// A read of a device.
    pub(crate) fn read(&mut self, inode: u32, count: u32, given: &mut Given) -> Told
        requires device { IfSome (row_at self.old inode) (λ row. IsSome row.device) }
        requires none { given.old ≡ [] }
        ensures left { IfSome (row_at self.old inode) (λ row. record { told = result; bytes = given.new; state = bytes_at self.new inode } ≡ left_by row.bytes (read_of row.device count row.bytes)) }
        ensures others { IfSome (row_at self.old inode) (λ row. self.new ≡ slice_set self.old inode (Some (row_with_bytes row (bytes_at self.new inode)))) }
    {
        match self.row_mut(inode) {
            Some(row) => row.read(count, given),
            None => Told::Waits,
        }
    }

    /// A write of bytes to a device.
    pub(crate) fn write(&mut self, inode: u32, bytes: &[u8]) -> Told
        requires device { IfSome (row_at self.old inode) (λ row. IsSome row.device) }
        requires few { length bytes.now ≤ TRANSFER }
        ensures left { IfSome (row_at self.old inode) (λ row. record { told = result; bytes = []; state = bytes_at self.new inode } ≡ left_by row.bytes (write_of row.device bytes.now row.bytes)) }
        ensures others { IfSome (row_at self.old inode) (λ row. self.new ≡ slice_set self.old inode (Some (row_with_bytes row (bytes_at self.new inode)))) }
    {
        match self.row_mut(inode) {
            Some(row) => row.write(bytes),
            None => Told::Waits,
        }
    }
}
