//! The pipe manager, and each device's: what messages do to the pipes and devices of a user, to their inodes and names and to
//! the calls that wait.
//!
//! They stand over what all users share and a user's store: `paths.rt` has an open and an unlink, `blocks.rt` what goes over
//! an open control block, and an unblock; `kinds.rt`, which kind of inode a manager has of its own. `Pipes.antt` says how the
//! user's resources are seen in the two (`seen`), and that both are afterwards as the machine left them (`Follows`).
//! `Told.antt` says what a READ and a WRITE are told at once, where nobody waits in the pipe.
#![tactic(auto)]

pub mod blocks;
pub mod kinds;
pub mod paths;

pub use blocks::{cancel, close, holder, read, seek, write};
pub use kinds::kind_of;
pub use paths::{open, unlink};
