//! Paths and mounts: what a path's bytes are as components, and which mount of a user a path leads to.
//!
//! - `path.rt`: `read_path`; `Path`, what it has behind a prefix, and the walk over its components
//! - `mount.rt`, `mounts.rt`: a mount; `Mounts`, one table of all users' mounts: `boot`, `add`, `resolve`
//! - `resolved.rt`: where a path leads: a mount's number, depth, manager and root, and the rest
//! - `laws.rt`: what holds of the definitions alone
//!
//! A reader has to believe `Paths.antt`, `Prefixes.antt` and `Mounts.antt`; `Laws.antt` has the words of the laws.
#![tactic(auto)]

pub mod laws;
pub mod mount;
pub mod mounts;
pub mod path;
pub mod resolved;

pub use mount::Mount;
pub use mounts::Mounts;
pub use path::{Components, Path, read_path};
pub use resolved::Resolved;
