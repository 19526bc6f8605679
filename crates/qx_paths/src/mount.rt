ghost use Rattle.std.specs.Prelude.{◌≡◌, ◌∷◌, [], IfOk, length};
ghost use Rattle.qx_paths.specs.Prefixes.{behind, is_at};

use crate::path::Path;
use qx_types::{Bytes, Manager, NoMemory};
use std::alloc::Global;
use std::marker::Model;

/// A manager, the components at which it is attached, and the inode of the mount's root (C Library Reference:
/// `resmgr_attach`, whose handle is the root's attribute).
#[derive(Debug, Drop)]
pub struct Mount {
    prefix: Vec<Bytes>,
    manager: Manager,
    root: u32,
}

impl Model for Mount {
    ghost use Rattle.qx_paths.specs.Prefixes.{MountPoint};

    ghost Value = { MountPoint };

    ghost view = { λ m. record { prefix = m.prefix.items; manager = m.manager; root = m.root } };
}

impl Mount {
    /// A manager attached at the components of a path, of which it keeps a copy.
    pub fn new(
        alloc: Global,
        path: &Path<'_>,
        manager: Manager,
        root: u32,
    ) -> Result<Mount, NoMemory>
        ensures mount { IfOk result (λ mount. mount ≡ record { prefix = path.now; manager = manager; root = root }) }
    {
        let mut prefix = Vec::new(alloc);
        let mut walk = path.components();
        while let Some(component) = walk.next() {
            prefix.push(Bytes::from_slice(alloc, component)?)?;
        }
        Ok(Mount {
            prefix,
            manager,
            root,
        })
    }

    /// A manager attached at one component, a user's name.
    pub fn top(alloc: Global, name: &[u8], manager: Manager, root: u32) -> Result<Mount, NoMemory>
        ensures mount { IfOk result (λ mount. mount ≡ record { prefix = name.now ∷ []; manager = manager; root = root }) }
    {
        let mut prefix = Vec::new(alloc);
        prefix.push(Bytes::from_slice(alloc, name)?)?;
        Ok(Mount {
            prefix,
            manager,
            root,
        })
    }

    /// The manager.
    pub fn manager(&self) -> Manager
        ensures manager { result ≡ self.now.manager }
    {
        self.manager
    }

    /// The inode of the mount's root.
    pub fn root(&self) -> u32
        ensures root { result ≡ self.now.root }
    {
        self.root
    }

    /// How many components there are.
    pub fn depth(&self) -> usize
        ensures depth { result ≡ length self.now.prefix }
    {
        self.prefix.len()
    }

    /// What a path has behind the components, if it begins with them.
    pub fn behind<'a>(&self, path: &Path<'a>) -> Option<Path<'a>>
        ensures behind { result ≡ behind path.now self.now.prefix }
    {
        path.behind(&self.prefix)
    }

    /// Whether a path is just the components.
    pub fn is_at(&self, path: &Path<'_>) -> bool
        ensures at { result ≡ is_at path.now self.now }
    {
        match self.behind(path) {
            Some(rest) => rest.is_empty(),
            None => false,
        }
    }
}
