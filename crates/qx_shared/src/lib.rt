//! What all users share: the managers' lines with the nodes that stand in them, and the pipes of all users, in which calls
//! wait.
//!
//! - `shared.rt`: `Shared`, the lines with their nodes, and the pipes of all users; the calls on lines, handed on
//! - `pipes.rt`: the calls on one pipe, each of which leaves all others; whether a process has calls that wait, and that it
//!   has ended
//! - `row.rt`, `side.rt`: a pipe, its bytes and the numbers of its two lists; its two sides
//!
//! What contracts see is `Shared.antt`: lines, and pipes as the machine has them, with `with_pipe_after` and `with_row_at`
//! for what a call makes of one. How the pipes stand over the lists is the crate's own (`Own.antt`, `Row.antt`).
#![tactic(auto)]

pub mod pipes;
pub mod row;
pub mod shared;
pub mod side;

pub use row::Blank;
pub use shared::Shared;
pub use side::Side;
