//! What the kernel has open of one user.
ghost use Rattle.std.specs.Prelude.{◌≡◌, [], IfOk, None, OnErr, OnOk, Some, slice_set};
ghost use Rattle.qx_isolation.specs.Rows.{lowest_from, put_row, row_at};
ghost use Rattle.qx_fuse_tables.specs.Handles.{first_to, is_open, is_to, number_to};

use qx_rows::places;
use qx_types::Coid;
use std::alloc::{AllocError, Global};
use std::marker::Model;

/// What something is, as far as the kernel is answered otherwise for it.
#[derive(Clone, Copy, Debug, PartialEq, Eq)]
pub enum Kind {
    File,
    Directory,
    /// A pipe or a device: reads and writes may wait, and there is no offset.
    Stream,
}

/// What is open: the process that opened it and its connection, the node that was opened, and the flags of the open.
#[derive(Clone, Copy, Debug)]
pub struct Handle {
    pub process: u8,
    pub coid: Coid,
    pub node: u64,
    pub kind: Kind,
    pub flags: u32,
}

/// What one user has open, each under the lowest number from 0 that was free.
#[derive(Drop)]
pub struct Handles {
    places: Vec<Option<Handle>>,
}

impl Model for Handles {
    ghost use Rattle.qx_fuse_tables.specs.Handles.{HandleRows};

    ghost Value = { HandleRows };

    ghost view = { λ handles. handles.places.items };
}

/// Whether it is a handle to that node.
fn is_to(node: u64, place: &Option<Handle>) -> bool
    ensures { result ≡ is_to node place.now }
{
    match place {
        Some(handle) => handle.node == node,
        None => false,
    }
}

impl Handles {
    /// None, for which no memory is taken.
    pub fn new(alloc: Global) -> Handles
        ensures none { result ≡ [] }
    {
        Handles {
            places: Vec::new(alloc),
        }
    }

    /// The handle of a number.
    pub fn get(&self, number: u64) -> Option<Handle>
        ensures handle { result ≡ row_at self.now number }
    {
        places::row(self.places.as_slice(), number as usize).copied()
    }

    /// Puts a handle under the lowest free number. One whose connection is not open yet may be put first, so that there is a place
    /// for it before the message is sent.
    pub fn put(&mut self, handle: Handle) -> Result<u64, AllocError>
        ensures number { IfOk result (λ number. number ≡ lowest_from 0 self.old) }
        ensures ok { OnOk result (self.new ≡ put_row self.old (lowest_from 0 self.old) handle) }
        ensures err { OnErr result (self.new ≡ self.old) }
    {
        let number = places::lowest_free(self.places.as_slice(), 0);
        places::put(&mut self.places, number, handle)?;
        Ok(number as u64)
    }

    /// Changes what stands under a number of the table.
    pub fn set(&mut self, number: u64, handle: Handle)
        ensures handle { self.new ≡ slice_set self.old number (Some handle) }
    {
        places::set(&mut self.places, number as usize, handle);
    }

    /// Frees a number, and gives the handle that stood there.
    pub fn take(&mut self, number: u64) -> Option<Handle>
        ensures handle { result ≡ row_at self.old number }
        ensures freed { self.new ≡ slice_set self.old number None }
    {
        let handle = self.get(number);
        places::free(&mut self.places, number as usize);
        handle
    }

    /// Whether a node is open.
    pub fn is_open(&self, node: u64) -> bool
        ensures is_open { result ≡ is_open self.now node }
    {
        self.places.iter().any(|place| is_to(node, place))
    }

    /// The first handle to a node: what the kernel asks of a node without a name goes over it.
    pub fn first_to(&self, node: u64) -> Option<Handle>
        ensures handle { result ≡ first_to self.now node }
    {
        let number = self.number_to(node)?;
        self.get(number as u64)
    }

    fn number_to(&self, node: u64) -> Option<usize>
        ensures number { result ≡ number_to self.now node }
    {
        self.places.iter().position(|place| is_to(node, place))
    }
}
