//! The names of a user's files and directories: what is in each directory, and where a path leads.
//!
//! - `names.rt`: `Names`, the directories as a map from whole paths to inodes; the walk along a path
//! - `folders.rt`: `Folders`, the entries of all directories, in a list of a table of entries
//! - `child_list.rt`, `search.rt`: that list, by directory and then by name, with an index beside; the place of a name in it
//! - `entry.rt`: what a node of a list has
//! - `spot.rt`: where a walk ends; search of a directory
//!
//! Which map of whole paths the directories show is told in `Shows.antt`; their entries (`Folders.antt`), and how these stand in
//! lists (`Children.antt`), are the crate's own.
#![tactic(auto)]

mod child_list;
mod entry;
mod folders;
pub mod names;
mod search;
pub mod spot;

pub use names::Names;
pub use spot::Spot;
