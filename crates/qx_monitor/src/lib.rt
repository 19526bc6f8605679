//! One lock, under which threads take steps, and how they wait there for what comes to it.
//!
//! - `monitor.rt`: `Monitor`, the lock and where threads sleep
//! - `locked.rt`: what lies under the lock, and who waits for what
//! - `waits.rt`: what threads wait for
//! - `owed.rt`: what a thread owes that took a step under the lock, or began to wait there
//! - `spinner.rt`: how a thread that waits spins before it sleeps
//!
//! What lies under the lock is any `UnderLock`. `Awaits.antt` says in the machine's words what threads wait for, `Waits.antt` how
//! sets of threads stand in bits.
#![tactic(auto)]

mod locked;
mod monitor;
mod owed;
mod spinner;
mod waits;

pub use locked::{HeldCopy, Locked, Received};
pub use monitor::{Bells, Called, Monitor, Performed};
pub use owed::{Begun, Released, Short, Wake, WasStopped};
pub use spinner::Spinner;
pub use waits::{Awaited, Coming, ThreadSet};
