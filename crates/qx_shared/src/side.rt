//! The two sides of a pipe.

/// A side of a pipe, on which calls may wait.
#[derive(Clone, Copy, Debug, PartialEq, Eq)]
pub enum Side {
    Reading,
    Writing,
}
