use crate::path::Path;
use qx_types::Manager;

/// Where a path leads: a mount, and what the path has behind the mount's prefix. It borrows from the bytes of the path.
#[derive(Debug, Drop)]
pub struct Resolved<'a> {
    /// The mount's place among its user's mounts, from 0.
    pub number: usize,
    /// How many components the mount's prefix has.
    pub depth: usize,
    /// The mount's manager.
    pub manager: Manager,
    /// The inode of the mount's root.
    pub root: u32,
    /// The components behind the prefix.
    pub rest: Path<'a>,
}
