//! The bytes of one user's files, under the numbers of their inodes.
//!
//! - `files.rt`: `Files`, with one call for each way in which files come, change and go; the sum of their sizes
//! - `data.rt`, `contents.rt`: the bytes of one file, in blocks; those of all
//! - `places.rt`: where each block stands, what makes blocks, and what puts bytes into them
//! - `laws.rt`: what was written is read back; what stands before and behind it stays
#![tactic(auto)]

mod contents;
mod data;
pub mod files;
pub mod laws;
mod places;

pub use data::Data;
pub use files::Files;
