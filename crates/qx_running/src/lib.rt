//! A world that runs on with no list of its steps, and a recorder of the last ones.
//!
//! - `running.rt`: `Running`, the world with its recorder; `Recorded`, what that keeps of a step; `Piece`, what is read of it
//! - `under_lock.rt`: a run under a server's lock
//! - `laws.rt`: a line that is passed over comes nearer to its turn
//!
//! `Running.antt` says what a step makes of a run, which manager is next and which steps are read, `Told.antt` what a server tells
//! over a run. Of bytes the first ones are kept (`cut.rt` of `qx_types`).
#![tactic(auto)]

pub mod laws;
pub mod running;
pub mod under_lock;

pub use qx_types::KEPT;
pub use running::{PIECE, Piece, Recorded, Running};
