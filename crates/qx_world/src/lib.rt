//! The world that the machine describes, the trace of the steps that it took, and what a lock may have in it.
//!
//! - `trace.rt`: `Traced`; `Trace.antt` says what contracts see of it, `Lending.antt` what it ends as where an outcome is lent
//! - `under_lock.rt`: `UnderLock`, a world in which threads take steps, each thread at a seat; `Seats.antt` says what steps do
//!   there, `Outcomes.antt` which outcomes they have
//!
//! `World`, `Work`, `WorkRef` and `PerformFault` are those of `qx_steps`, handed on, and so is what `Steps.antt` names.
#![tactic(auto)]

pub mod trace;
pub mod under_lock;

pub use qx_steps::{PerformFault, Work, WorkRef, World};
pub use trace::{Traced, Unstored};
pub use under_lock::UnderLock;
