//! A world that runs on with no list of its steps, and seats at which threads take them: what was done at a seat are the run's own
//! entries of that seat, known in proofs alone.
//!
//! - `front.rt`: a list that exists in proofs alone, to which threads add entries: `Head`, the word that is its length; `Front`, a
//!   beginning that was seen; `Opened`, a list that has no name yet. No entry is stored.
//! - `tied.rt`: `Tied`, the run, under its lock
//! - `seat.rt`: `Seat`, a thread's place at a run
//! - `ties.rt`: the list of what was tried, and how much of it each seat tried
//! - `event.rt`: what stands in that list
//! - `under_lock.rt`: the run under a server's lock
//!
//! `Fronts.antt` says when one list goes on from another, `Tied.antt` what was done at a seat, `Run.antt` what a step makes of a run.
#![tactic(auto)]

pub mod event;
pub mod front;
pub mod seat;
pub mod tied;
pub mod ties;
pub mod under_lock;

pub use event::{Event, Tagged};
pub use front::{Front, Head, Naming, Opened};
pub use seat::{OfRun, Seat};
pub use tied::Tied;
