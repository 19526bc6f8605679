//! What a user has under names and numbers, and what any resource manager does by default with it (Writing a Resource
//! Manager: the iofunc layer).
//!
//! - `store.rt`: `Store`, the inodes, names and bytes of files of a user, which stand together; boot, the root of a
//!   mount, and what a manager of files or pipes changes in an inode
//! - `tables.rt`: the same tables, which need not stand together between the steps of one message
//! - `opening.rt`: an open in two phases, `lookup` and `open`
//! - `paths.rt`, `renaming.rt`, `blocks.rt`: the other messages to a path; a rename; status, listing and mode of what is open,
//!   a dup and a close
//! - `entries.rt`: what may be opened and made, and how attributes change with the entries of a directory
//! - `found.rt`: what a lookup found, what an open gave, and what a close took away
//! - `laws.rt`: what is removed had no names in it; the sum of the sizes
//!
//! What contracts see is `Store.antt` and `Given.antt`, of an open `Lookups.antt` and `Makes.antt`; how the parts of a
//! store stand together is `Fits.antt`.
#![tactic(auto)]

pub mod blocks;
mod entries;
pub mod found;
pub mod laws;
pub mod opening;
pub mod paths;
pub mod renaming;
pub mod store;
mod tables;

pub use found::{Closed, Lookup, New, Opening};
pub use store::Store;
