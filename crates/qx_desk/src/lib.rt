//! A desk: inputs of several users come to a front, one after the other. Each is answered by steps of its user, every one of them
//! chosen by what was written at those before it, and by what the front keeps of that user.
//!
//! - `taking.rt`: steps that are taken for one user; `desk.rt`: a front, and the desk that it works at
//! - `laws.rt`: the laws of every front
//!
//! `Programs.antt` says what is done for one input, `Fronts.antt` what a front is and what it answers, and `Desks.antt` what
//! contracts see of the code.
#![tactic(auto)]

pub mod desk;
pub mod laws;
pub mod taking;

pub use desk::{Desk, Front, InputFault};
pub use taking::{By, Taking};
