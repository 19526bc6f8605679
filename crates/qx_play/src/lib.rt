//! What a script does and prints.
//!
//! - `play.rt`: what each command makes of a `Traced`, and the text that it prints
//! - `live.rt`: the trace of a session, from its lines
//! - `text.rt`: actors, items and outcomes, a transcript and a trace
//! - `laws.rt`: a script's steps, made into a script, are taken again; `show` prints what the user receives without the
//!   others' steps
//!
//! What lines do and print is told in `Play.antt` and `Printed.antt`. In `proofs/`, `Serving.antt` has that nothing waits
//! after serving, `Shown.antt` what `show` prints.
#![tactic(auto)]

pub mod laws;
pub mod live;
pub mod play;
pub mod text;
