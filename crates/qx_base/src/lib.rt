//! What everything above is made of: bytes as plain data, the names of errors, and what a device is given and leaves.
//!
//! - `bytes.rt`: `Bytes`, of a path, a name or a request
//! - `message.rt`: `MessageBytes`, of a message or an answer, of which few stand in the value itself
//! - `buffer.rt`: `Buffer`, bytes with all their memory from the start
//! - `errno.rt`: `Errno`, the names of errors
//! - `device.rt`: the state of a device of an author's own, what it gives, and what a call to it is told
#![tactic(auto)]

pub mod buffer;
pub mod bytes;
pub mod device;
pub mod errno;
pub mod message;

pub use buffer::Buffer;
pub use bytes::Bytes;
pub use device::{GIVEN, Given, STATE, State, Told};
pub use errno::Errno;
pub use message::MessageBytes;
