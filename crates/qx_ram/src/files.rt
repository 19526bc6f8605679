ghost use Rattle.std.specs.Prelude.{◌≡◌, ◌≤◌, [], None, Ok, IfOk, IsTrue, OnErr, length};
ghost use Rattle.qx_iofunc.specs.Given.{number_replied};
ghost use Rattle.qx_iofunc.specs.Store.{with_stored};
ghost use Rattle.qx_files.specs.Blocks.{blocks_for, count_of};
ghost use Rattle.qx_machine.specs.Files.{size_of, total_size, write_offset};
ghost use Rattle.qx_machine.specs.RamManager as machine;
ghost use Rattle.qx_machine.specs.Resources.{Resources};
ghost use Rattle.qx_isolation.specs.Rows.{row_at};
ghost use Rattle.qx_machine.specs.Wants.{is_done_so, writes_to_blank};
ghost use Rattle.qx_ram.specs.Writes.{WritesToLacking};
ghost use Rattle.qx_ram.specs.inner.Given.{moved_offset, write_fault};
ghost use Rattle.qx_types.specs.declared.limits.TheConstants.Limits.{TRANSFER};

use bitflags::Flags;
use qx_files::{Data, Files};
use qx_iofunc::Store;
use qx_machine::{Ocb, Opened};
use qx_rows::Reply;
use qx_types::{Errno, LimitName, Limits, OFlags, UserLimits, Whence};
use std::alloc::AllocError;

/// Writes the bytes from where an open control block stands, at most so many, into a reply, and gives their number (C Library
/// Reference: `read`). EBADF without a block for reading, EISDIR on a directory.
pub fn read(store: &mut Store, opened: Opened, count: u32, reply: &mut Reply) -> Result<u64, Errno>
    requires count { count ≤ TRANSFER }
    requires empty { reply.old ≡ [] }
    ensures user { store.new.stored.user ≡ store.old.stored.user }
    ensures read { (r : Resources) → number_replied reply.new (with_stored r store.new.stored) result ≡ machine.read_file (with_stored r store.old.stored) opened count }
    ensures kept { OnErr result ((store.new ≡ store.old) × (reply.new ≡ [])) }
{
    let block = store.inodes().block_for(opened.number, OFlags::READ)?;
    let Some(data) = store.files().get(block.inode) else {
        return Err(Errno::EISDIR);
    };
    let status = data.read(block.offset as usize, count as usize, reply) as u64;
    store.set_offset(opened.number, block.offset + status);
    Ok(status)
}

/// Writes bytes where an open control block stands, or with APPEND at the end, and gives their number; a gap is filled with
/// zero bytes (C Library Reference: `write`). EBADF without a block for writing, EFBIG past as many bytes as the user's file may
/// have, ENOSPC where the user's files would have more together than they may. Where an error comes or memory is short, nothing changes;
/// memory is wanted only where no error comes and one of the bytes stands in a block that isn't there, which reads as zero
/// bytes then.
#[tactic(auto, using(qx_files::proofs::SizeLemmas::size_within, crate::proofs::WriteLemmas::few_after))]
pub fn write(
    store: &mut Store,
    opened: Opened,
    new: &[u8],
) -> Result<Result<u64, Errno>, AllocError>
    requires few { length new.now ≤ TRANSFER }
    ensures user { store.new.stored.user ≡ store.old.stored.user }
    ensures written { IfOk result (λ w. (r : Resources) → number_replied [] (with_stored r store.new.stored) w ≡ machine.write_file (with_stored r store.old.stored) opened new.now) }
    ensures kept { IfOk result (λ w. OnErr w (store.new ≡ store.old)) }
    ensures err { OnErr result (store.new ≡ store.old) }
    ensures lacks { OnErr result (WritesToLacking store.old opened.number (length new.now)) }
    ensures wanted { OnErr result ((r : Resources) → IsTrue (is_done_so (λ before after. writes_to_blank before (Ok opened) new.now) (with_stored r store.old.stored) (machine.write_file (with_stored r store.old.stored) opened new.now))) }
{
    let block = match store.inodes().block_for(opened.number, OFlags::WRITE) {
        Ok(block) => block,
        Err(error) => return Ok(Err(error)),
    };
    let files = store.files();
    let Some(data) = files.get(block.inode) else {
        return Ok(Err(Errno::EBADF));
    };
    if new.is_empty() {
        return Ok(Ok(0));
    }
    let offset = write_offset(block, data);
    if let Some(error) = write_fault(store.limits(), files, data, offset, new.len()) {
        return Ok(Err(error));
    }
    store.write(block.inode, offset as usize, new, opened.moment)?;
    let count = new.len() as u64;
    store.set_offset(opened.number, offset + count);
    Ok(Ok(count))
}

/// How many blocks of a file are there: no more than its bytes need, and none where there is no such inode or it is no file.
pub fn blocks(store: &Store, inode: u32) -> usize
    ensures count { result ≡ count_of (row_at store.now.blocks inode) }
    ensures few { result ≤ blocks_for (size_of (row_at store.now.stored.files inode)) }
    ensures none { row_at store.now.stored.files inode ≡ None → result ≡ 0 }
{
    store.files().blocks(inode)
}

/// Moves an open control block to a further offset, which is the status (C Library Reference: `lseek`). EINVAL on a
/// directory, below 0, and above 2^63 - 1.
pub fn seek(store: &mut Store, opened: Opened, whence: Whence, by: i64) -> Result<u64, Errno>
    ensures user { store.new.stored.user ≡ store.old.stored.user }
    ensures moved { (r : Resources) → number_replied [] (with_stored r store.new.stored) result ≡ machine.seek_file (with_stored r store.old.stored) opened whence by }
    ensures kept { OnErr result (store.new ≡ store.old) }
{
    let Some(block) = store.inodes().block(opened.number) else {
        return Err(Errno::EBADF);
    };
    let Some(data) = store.files().get(block.inode) else {
        return Err(Errno::EINVAL);
    };
    let base = match whence {
        Whence::Set => 0,
        Whence::Current => block.offset,
        Whence::End => data.len() as u64,
    };
    let offset = moved_by(base, by)?;
    store.set_offset(opened.number, offset);
    Ok(offset)
}

// Where a write begins: with APPEND at the end.
fn write_offset(block: Ocb, bytes: &Data) -> u64
    ensures { result ≡ write_offset block bytes.now.bytes }
{
    if block.flags.contains(OFlags::APPEND) {
        bytes.len() as u64
    } else {
        block.offset
    }
}

// Why so many bytes can't be written at an offset of a file that has these, one of the user's files: EFBIG or ENOSPC.
fn write_fault(
    limits: UserLimits,
    files: &Files,
    bytes: &Data,
    offset: u64,
    count: usize,
) -> Option<Errno>
    requires count { count ≤ TRANSFER }
    requires size { length bytes.now.bytes ≤ total_size files.now.files }
    ensures { result ≡ write_fault limits (total_size files.now.files) (length bytes.now.bytes) offset count }
{
    let file = limits.get(LimitName::File);
    if offset > file as u64 || offset as usize + count > file {
        return Some(Errno::EFBIG);
    }
    let after = bytes.len().max(offset as usize + count);
    if files.total() - bytes.len() + after > limits.get(LimitName::Bytes) {
        return Some(Errno::ENOSPC);
    }
    None
}

// A further offset, from a base, else EINVAL.
fn moved_by(base: u64, by: i64) -> Result<u64, Errno>
    ensures { result ≡ moved_offset base by }
{
    match base.checked_add_signed(by) {
        Some(offset) if offset <= Limits::OFFSET => Ok(offset),
        _ => Err(Errno::EINVAL),
    }
}
