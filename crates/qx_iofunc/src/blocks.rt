//! Messages over what is open.

ghost use Rattle.std.specs.Prelude.{◌≡◌, [], Ok, IfOk, OnErr, if◌then◌else◌};
ghost use Rattle.std.specs.Result.{result_map_both};
ghost use Rattle.qx_iofunc.specs.Given as given;
ghost use Rattle.qx_iofunc.specs.Store.{block_gone, blocks_gone, unused_gone, with_stored};
ghost use Rattle.qx_machine.specs.Defaults as machine;
ghost use Rattle.qx_machine.specs.Inodes.{close_block, dup_block, is_shared, is_unused, without_use};
ghost use Rattle.qx_machine.specs.Resources.{Resources};
ghost use Rattle.qx_isolation.specs.Rows.{row_at};

use crate::entries::is_own;
use crate::found::Closed;
use crate::store::Store;
use qx_attr::{Inodes, Ocb, Status};
use qx_machine::{Attribute, Kind, Opened};
use qx_rows::Reply;
use qx_types::Errno;

/// The number of the root of a user's top.
const TOP_INODE: u32 = 1;

/// An open control block of a directory or of an inode of the manager's own kind (Writing a Resource Manager:
/// `iofunc_ocb_t`). EBADF without one.
fn own_block(inodes: &Inodes, number: u16, own: Kind) -> Result<Ocb, Errno>
    ensures block { result ≡ machine.own_block inodes.now.inodes number own }
{
    let Some(block) = inodes.block(number) else {
        return Err(Errno::EBADF);
    };
    match inodes.attr(block.inode) {
        Some(attr) if is_own(own, attr.attribute.kind) => Ok(*block),
        _ => Err(Errno::EBADF),
    }
}

impl Store {
    /// The status of what is open (C Library Reference: `fstat`). EBADF without a block.
    pub fn fstat(&self, opened: Opened) -> Result<Status, Errno>
        ensures status { (r : Resources) → given.status_told (with_stored r self.now.stored) result ≡ machine.stat_block (with_stored r self.now.stored) opened }
    {
        let Some(block) = self.tables.inodes.block(opened.number) else {
            return Err(Errno::EBADF);
        };
        self.tables.inodes.stat_of(block.inode).ok_or(Errno::EBADF)
    }

    /// Writes the names in a directory that is open, behind one, into a reply, each followed by a zero byte, as many whole
    /// ones as fit 4,096 bytes, and gives their number (C Library Reference: `readdir`; how a listing is cut is this
    /// profile). EBADF without a block, ENOTDIR on what is no directory.
    pub fn list(&self, opened: Opened, after: &[u8], reply: &mut Reply) -> Result<u64, Errno>
        requires empty { reply.old ≡ [] }
        ensures listed { (r : Resources) → given.number_replied reply.new (with_stored r self.now.stored) result ≡ machine.list_block (with_stored r self.now.stored) opened after.now }
        ensures kept { OnErr result (reply.new ≡ []) }
    {
        let Some(block) = self.tables.inodes.block(opened.number) else {
            return Err(Errno::EBADF);
        };
        let Some(attr) = self.tables.inodes.attr(block.inode) else {
            return Err(Errno::EBADF);
        };
        if attr.attribute.kind != Kind::Directory {
            return Err(Errno::ENOTDIR);
        }
        Ok(self.tables.names.list(block.inode, after, reply))
    }

    /// Sets the mode of what is open (C Library Reference: `fchmod`). EBADF without a block, EPERM where that is the user's
    /// top.
    pub fn chmod(&mut self, opened: Opened, mode: u16) -> Result<(), Errno>
        ensures user { self.new.stored.user ≡ self.old.stored.user }
        ensures changed { (r : Resources) → given.done (with_stored r self.new.stored) result ≡ machine.chmod_block (with_stored r self.old.stored) opened mode }
        ensures kept { OnErr result (self.new ≡ self.old) }
    {
        let Some(block) = self.tables.inodes.block(opened.number) else {
            return Err(Errno::EBADF);
        };
        let inode = block.inode;
        if inode == TOP_INODE {
            return Err(Errno::EPERM);
        }
        let Some(attr) = self.tables.inodes.attr(inode) else {
            return Err(Errno::EBADF);
        };
        let attribute = Attribute {
            mode,
            ctime: opened.moment,
            ..attr.attribute
        };
        self.tables.inodes.set_attribute(inode, attribute);
        Ok(())
    }

    /// One more connection has an open control block (Writing a Resource Manager: `io_dup`; C Library Reference: `dup`).
    /// EBADF without a block, and EMFILE where as many connections have it as a process can have, which no process comes to.
    pub fn dup(&mut self, number: u16) -> Result<(), Errno>
        ensures shared { result_map_both (λ _. self.new.stored.inodes) (λ error. error) result ≡ dup_block self.old.stored.inodes number }
        ensures rest { self.new ≡ record self.old { stored = record self.old.stored { inodes = self.new.stored.inodes } } }
        ensures kept { OnErr result (self.new ≡ self.old) }
    {
        self.tables.inodes.dup_block(number)
    }

    /// One connection less has an open control block, if others have it too, and tells whether they have (Writing a Resource
    /// Manager: `iofunc_close_dup`). Else nothing changes.
    pub fn close_dup(&mut self, number: u16) -> bool
        ensures shared { result ≡ is_shared (row_at self.old.stored.inodes.blocks number) }
        ensures left { self.new ≡ (if is_shared (row_at self.old.stored.inodes.blocks number) then record self.old { stored = record self.old.stored { inodes = without_use self.old.stored.inodes number } } else self.old) }
    {
        self.tables.inodes.close_dup(number)
    }

    /// Takes an open control block of a directory or of an inode of the manager's own kind away (C Library Reference:
    /// `close`), and what was open with it, with the bytes of a file, where nothing names that and nothing else has it open.
    /// EBADF without such a block.
    pub fn close(&mut self, own: Kind, number: u16) -> Result<Closed, Errno>
        ensures block { result_map_both (λ c. c.inode) (λ error. error) result ≡ result_map_both (λ block. block.inode) (λ error. error) (machine.own_block self.old.stored.inodes number own) }
        ensures gone { IfOk result (λ c. c.is_gone ≡ is_unused (close_block self.old.stored.inodes number) c.inode (row_at self.old.stored.inodes.attributes c.inode)) }
        ensures closed { IfOk result (λ c. self.new ≡ record self.old { stored = unused_gone own c.inode (block_gone number self.old.stored); blocks = blocks_gone own c.inode (block_gone number self.old.stored) self.old.blocks }) }
        ensures kept { OnErr result (self.new ≡ self.old) }
    {
        let block = own_block(&self.tables.inodes, number, own)?;
        self.tables.inodes.close_block(number);
        Ok(Closed {
            inode: block.inode,
            is_gone: self.tables.free(own, block.inode),
        })
    }
}
