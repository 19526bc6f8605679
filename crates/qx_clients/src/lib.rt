//! The processes of a user, how a call of one of their threads is judged, and what its request sends.
//!
//! - `processes.rt`: `Processes`; `Calls.antt` says how its calls are judged and what they make
//! - `judge.rt`: how a call of a thread is judged, by the processes of its user
//! - `refusal.rt`: why a call sends nothing
//! - `content.rt`: the message that a request sends, whether that is in its ranges, and its bytes
#![tactic(auto)]

pub mod content;
pub mod judge;
pub mod processes;
pub mod refusal;

pub use content::encoded;
pub use judge::target_by;
pub use processes::Processes;
pub use refusal::Refusal;
