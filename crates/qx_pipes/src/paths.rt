//! What messages to a path do.

ghost use Rattle.std.specs.Prelude.{◌≡◌, ◌<◌, [], IfOk, IsOk, Ok, OnErr, Some, length};
ghost use Rattle.qx_iofunc.specs.Given as given;
ghost use Rattle.qx_iofunc.specs.Lookups.{IsAllowed, open_found};
ghost use Rattle.qx_machine.specs.Defaults as machine;
ghost use Rattle.qx_machine.specs.Pipes.{pipe_of};
ghost use Rattle.qx_machine.specs.Resources.{Resources};
ghost use Rattle.qx_pipes.specs.Pipes.{Follows, kind_with, open_of_block, seen};
ghost use Rattle.qx_shared.specs.Shared.{HasPipe, with_row_at};

use crate::blocks::remove;
use crate::kinds::kind_of;
use qx_iofunc::{Lookup, Store};
use qx_machine::{NewOpen, Wish};
use qx_queues::Leaving;
use qx_shared::{Blank, Shared};
use qx_types::{Device, Errno, User};
use qx_wire::Rest;
use std::alloc::AllocError;

/// Opens what a path leads to, or makes a pipe there, or of a device's mount the device, and opens it, and gives the number
/// of its open control block (C Library Reference: `open`; that nobody waits for the other side is this profile). The errors
/// of `Store::lookup`. Where an error comes or memory is short, nothing changes; memory is wanted only where no error comes.
pub fn open(
    shared: &mut Shared,
    store: &mut Store,
    device: Option<Device>,
    over: NewOpen,
    rest: &Rest<'_>,
    wish: Wish,
) -> Result<Result<u16, Errno>, AllocError>
    requires user { store.old.stored.user < length shared.old.pipes }
    ensures user { store.new.stored.user ≡ store.old.stored.user }
    ensures opened { IfOk result (λ o. (r : Resources) → open_of_block over.coid (seen r store.new.stored shared.new) o ≡ machine.open_path (kind_with device) (seen r store.old.stored shared.old) over rest.now wish) }
    ensures left { IfOk result (λ o. (r : Resources) → Follows store.old.stored shared.old store.new.stored shared.new r (machine.open_path (kind_with device) (seen r store.old.stored shared.old) over rest.now wish)) }
    ensures err { OnErr result ((store.new.stored ≡ store.old.stored) × (shared.new ≡ shared.old)) }
    ensures wanted { OnErr result ((r : Resources) → IsOk (machine.open_path (kind_with device) (seen r store.old.stored shared.old) over rest.now wish)) }
{
    let lookup = match store.lookup(over.root, rest, wish.flags) {
        Ok(lookup) => lookup,
        Err(error) => return Ok(Err(error)),
    };
    let number = open_found(shared, store, device, over, lookup, wish)?;
    Ok(Ok(number))
}

// Opens what a lookup found, or makes what is missing with no bytes and opens it. What stands under the number of no inode is
// taken for that.
fn open_found(
    shared: &mut Shared,
    store: &mut Store,
    device: Option<Device>,
    over: NewOpen,
    lookup: Lookup<'_>,
    wish: Wish,
) -> Result<u16, AllocError>
    requires user { store.old.stored.user < length shared.old.pipes }
    requires allowed { IsAllowed store.old.stored wish.flags lookup }
    ensures user { store.new.stored.user ≡ store.old.stored.user }
    ensures opened { IfOk result (λ number. (r : Resources) → open_found (kind_with device) (seen r store.old.stored shared.old) over lookup.entry wish ≡ open_of_block over.coid (seen r store.new.stored shared.new) (Ok number)) }
    ensures left { IfOk result (λ number. (r : Resources) → Follows store.old.stored shared.old store.new.stored shared.new r (open_found (kind_with device) (seen r store.old.stored shared.old) over lookup.entry wish)) }
    ensures err { OnErr result ((store.new.stored ≡ store.old.stored) × (shared.new ≡ shared.old)) }
{
    let own = kind_of(device);
    let Lookup::Missing { new, .. } = lookup else {
        return Ok(store.open(own, over.client, lookup, wish)?.number);
    };
    let user = store.user();
    store.inodes().numbered();
    if shared.has_pipe(user, new.inode) {
        let blank = shared.blank(device)?;
        let opening = store.open(own, over.client, lookup, wish)?;
        empty(shared, user, new.inode, blank);
        return Ok(opening.number);
    }
    shared.add_pipe(user, new.inode, device)?;
    match store.open(own, over.client, lookup, wish) {
        Ok(opening) => Ok(opening.number),
        Err(error) => {
            shared.remove_pipe(user, new.inode);
            Err(error)
        }
    }
}

// A pipe is a device's, or a pipe, has no bytes, and nobody waits in it.
fn empty(shared: &mut Shared, user: User, inode: u32, blank: Blank)
    requires pipe { HasPipe shared.old user.0 inode }
    ensures { shared.new ≡ with_row_at shared.old user.0 inode (Some (pipe_of blank [] [] [])) }
{
    shared.take_out(user, inode, Leaving::All);
    shared.renew(user, inode, blank);
}

/// Takes a name (C Library Reference: `unlink`); what it named goes, with its pipe, where nothing has it open. The errors
/// of `Store::unlink`. Where an error comes, nothing changes.
pub fn unlink(
    shared: &mut Shared,
    store: &mut Store,
    device: Option<Device>,
    root: u32,
    rest: &Rest<'_>,
    moment: u64,
) -> Result<(), Errno>
    requires user { store.old.stored.user < length shared.old.pipes }
    ensures user { store.new.stored.user ≡ store.old.stored.user }
    ensures unlinked { (r : Resources) → given.done (seen r store.new.stored shared.new) result ≡ machine.unlink_path (kind_with device) (seen r store.old.stored shared.old) root rest.now moment }
    ensures left { (r : Resources) → Follows store.old.stored shared.old store.new.stored shared.new r (machine.unlink_path (kind_with device) (seen r store.old.stored shared.old) root rest.now moment) }
{
    let user = store.user();
    let gone = store.unlink(kind_of(device), root, rest, moment)?;
    if let Some(inode) = gone {
        remove(shared, user, inode, true);
    }
    Ok(())
}
