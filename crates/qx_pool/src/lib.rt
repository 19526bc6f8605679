//! Worker threads and clients' threads round one lock, under which they take steps.
//!
//! - `server.rt`: `ServerOf`, a monitor over a world, with its seats; how it is stopped, and looked into (`Look`)
//! - `worker.rt`: `worker_loop`, with what an author gives it: a `Gate` and a `Clock`
//! - `client.rt`: `ClientOf`, who calls, waits for pulses and takes other steps
//! - `pool.rt`: `Server`, whose steps are stored, with its seats, and its `Client`
//! - `ending.rt`: its end
//! - `ends.rt`: how a call, and the waiting for a pulse, ended; why a step was not taken
//! - `service.rt`: `Service`, which runs on with no stored steps, and its `ServiceClient`
//! - `tied.rt`: `TiedService`, at whose seats it is known what was done there, and its `TiedClient`
//!
//! What lies under the lock is any `UnderLock`: `Storing` of a `Server`, `Running` of a `Service`, `Tied` of a `TiedService`.
//! `Ends.antt` says what a call and the waiting for a pulse do at a seat.
#![tactic(auto)]

pub mod client;
pub mod ending;
pub mod ends;
pub mod pool;
pub mod server;
pub mod service;
pub mod tied;
pub mod worker;

pub use client::ClientOf;
pub use ending::{FinishFault, finish};
pub use ends::{CallEnd, PulseEnd, StepFault};
pub use pool::{Client, Server};
pub use qx_monitor::WasStopped;
pub use qx_storing::{Note, Seat};
pub use qx_tied::{Event, OfRun, Opened};
pub use qx_world::UnderLock;
pub use server::{Look, ServerOf};
pub use service::{Service, ServiceClient};
pub use tied::{TiedClient, TiedService};
pub use worker::{Clock, Gate, worker_loop};
