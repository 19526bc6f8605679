//! Two resource managers as anybody may write them (`docs/MANAGER.md`): the null manager, from which nothing is ever read, and
//! whatever is written to it is gone; and the bell, whose reads wait, each until somebody writes.
//!
//! - `blocks.rt`: the open control blocks of a user
//! - `kept.rt`: what the null manager keeps for a user, and what its tables work on
//! - `null.rt`: its functions
//! - `bell.rt`, `ringing.rt`: what the bell keeps; its functions
//!
//! `Null.antt` and `Bell.antt` have their tables.
#![tactic(auto)]

mod bell;
mod blocks;
mod kept;
mod null;
mod ringing;

pub use bell::{Bell, Bells};
pub use blocks::Blocks;
pub use kept::{Kept, Told};
pub use null::Null;
pub use ringing::Ringing;
