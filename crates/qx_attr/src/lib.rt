//! The inodes and open control blocks of one user, at all managers.
//!
//! - `inodes.rt`: `Inodes`, with one call for each way in which inodes and blocks come, change and go
//! - `attr.rt`: `Attr`, an inode's attribute with its three counts
//! - `blocks.rt`: open control blocks under their numbers, in a slab
//! - `access.rt`: who may do what with an inode
//! - `status.rt`: the 40 bytes of a status
#![tactic(auto)]

pub mod access;
pub mod attr;
mod blocks;
pub mod inodes;
mod status;

pub use access::check_access;
pub use attr::Attr;
pub use inodes::Inodes;
pub use qx_machine::Ocb;
pub use status::{Status, stat_bytes};
