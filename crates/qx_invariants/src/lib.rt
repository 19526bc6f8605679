//! What holds in every world that a run of the written machine reaches.
//!
//! `laws.rt` has the laws. `Changes.antt` names the twelve kinds of change by which a user's resources become what they
//! are, what each makes of them and when it may happen; `Holds.antt` says what holds, `Waits.antt` counts calls that
//! wait; `Errors.antt` lists how each step may be refused, and with which errors each message may be answered.
//!
//! In `proofs/`, `Deeds.antt` has the changes that each function of the managers makes, and `Steps.antt` carries what
//! they keep through steps and runs. `Rooms.antt`, `Contents.antt`, `Named.antt`, `Trees.antt`, `Astray.antt`,
//! `Events.antt` and `Once.antt` have what these kinds leave of the laws; `Clients.antt` has who the clients of open
//! control blocks are, `Linked.antt` which connections have them and which server connections disconnect pulses name, and
//! `Few.antt` how many processes, connections and server connections a user has;
//! `Together.antt` and `Reached.antt` put them together. `Judged.antt` has how steps are refused; `Answering.antt`,
//! `Erring.antt` and `Asked.antt` with which errors calls that wait, messages and threads are answered, and
//! `LastSent.antt` puts these together. The others stand below: calls on a pipe or a device, rows and paths, one at a
//! time.
//!
//! All of it is of the machine alone. That the crate stands above crates of code is for their lemmas.
#![tactic(auto)]

pub mod laws;
