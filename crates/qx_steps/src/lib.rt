//! The world that the machine describes, in memory: one call for each step.
//!
//! - `world.rt`: `World`, the channel, the resources and the workers' hands, with one call for each step
//! - `performing.rt`: what a worker performs, for the user whose item it is, and how processes that have ended are freed
//! - `work.rt`: what a worker is to do, a message that was read or a pulse; the same, lent; and why it was not done
//!
//! `Parts.antt` puts the machine's world together of the channel's value and the resources, and says that the resources
//! are those of the channel's users. `Steps.antt` says how a call and a mount are judged, `Held.antt` what a worker holds,
//! `Performing.antt` what is done with it and which processes are freed then.
#![tactic(auto)]

mod performing;
pub mod work;
pub mod world;

pub use work::{PerformFault, Work, WorkRef};
pub use world::World;
