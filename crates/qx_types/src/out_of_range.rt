use thiserror::Error;

/// What a configuration is to have is out of its range, or of a user who is not there. Nothing was set.
#[derive(Clone, Copy, Debug, PartialEq, Eq, Error)]
#[error("there is no such user, or the number is out of its range")]
pub struct OutOfRange;
