//! What a device of an author's own is made of: the bytes that it keeps (`State`), those that it gives (`Given`), and what a
//! call to it is told (`Told`). `Verdict.antt` has what a device's definitions are written in.
use crate::buffer::Buffer;
use crate::errno::Errno;

/// The most bytes that a device keeps.
pub const STATE: usize = 4096;

/// The most bytes that a call may be given, as many as a reply has.
pub const GIVEN: usize = 4160;

/// The bytes that a device keeps, in one piece.
pub type State = Buffer<STATE>;

/// The bytes that a call to a device is given, which leave from where they are put.
pub type Given = Buffer<GIVEN>;

/// What a call to a device is told: it waits; it is replied to with a status; or it gets an error.
#[derive(Clone, Copy, Debug, PartialEq, Eq)]
pub enum Told {
    Waits,
    Gives(u64),
    Fails(Errno),
}
