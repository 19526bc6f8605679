//! Where managers are attached, for all users.

ghost use Rattle.std.specs.Prelude.{◌≡◌, ◌<◌, OnErr, OnOk, length};
ghost use Rattle.qx_paths.specs.Mounts.{mounts_of, with_mount_of};
ghost use Rattle.qx_resources.specs.Mounts.{IsNextMount, with_new_root};

use crate::channel::Channel;
use qx_paths::{Mount, Mounts};
use qx_resources::{NewMount, Resources};
use qx_types::{NoMemory, User};
use std::alloc::Global;

impl Channel {
    /// The mounts of all users.
    pub fn mounts(&self) -> &Mounts
        ensures mounts { result.now ≡ self.now.mounts }
    {
        &self.tables.mounts
    }

    /// Attaches a manager for a user, with a root of its own (C Library Reference: `resmgr_attach`): the user has one mount
    /// more beside the mounts of all.
    pub fn mount(
        &mut self,
        alloc: Global,
        user: User,
        resources: &mut Resources,
        mount: &NewMount<'_>,
    ) -> Result<(), NoMemory>
        requires place { user.0 < length self.old.mounts }
        requires user { resources.old.user ≡ user.0 }
        requires can { IsNextMount (mounts_of self.old.mounts user.0) resources.old mount.now }
        ensures mounted { OnOk result (self.new ≡ record self.old { mounts = with_mount_of self.old.mounts user.0 mount.now }) }
        ensures root { OnOk result (resources.new ≡ with_new_root mount.now.root resources.old) }
        ensures err { OnErr result ((self.new ≡ self.old) × (resources.new ≡ resources.old)) }
    {
        let attached = Mount::new(alloc, &mount.path, mount.manager, mount.root)?;
        resources.add_root(mount.root)?;
        let most = resources.most_mounts();
        match self.tables.mounts.add(most, user, &mount.path, attached) {
            Ok(()) => Ok(()),
            Err(_) => unreachable!(),
        }
    }
}
