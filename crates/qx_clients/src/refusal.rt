//! Why a call sends nothing.

ghost use Rattle.std.specs.Prelude.{◌≡◌};
ghost use Rattle.qx_types.specs.declared.outcome.Outcome.TheVariants as outcome;

use qx_types::{Errno, Outcome};
use std::marker::Model;

/// Why a call sends nothing, which contracts see as the outcome that it gets: the error, or none where the thread is not there
/// or not ready. An outcome has place for a reply, and a refusal needs none.
#[derive(Drop)]
pub struct Refusal {
    error: Option<Errno>,
}

impl Model for Refusal {
    ghost use Rattle.qx_types.specs.declared.outcome.Outcome.{Outcome};
    ghost use Rattle.qx_clients.specs.Refusals.{outcome_of};

    ghost Value = { Outcome };

    ghost view = { λ r. outcome_of r.error };
}

// Refusals are made by calls that are told to be seldom, so what they need stays off the way of a call that is sent.
impl Refusal {
    /// The thread is not there, or not ready.
    #[cold]
    #[inline(never)]
    pub fn wrong_state() -> Refusal
        ensures refusal { result ≡ outcome.WrongState }
    {
        Refusal { error: None }
    }

    /// The call is refused with an error.
    #[cold]
    #[inline(never)]
    pub fn refused(error: Errno) -> Refusal
        ensures refusal { result ≡ outcome.Refused error }
    {
        Refusal { error: Some(error) }
    }

    /// What the call gets.
    pub fn outcome(self) -> Outcome
        ensures outcome { result ≡ self }
    {
        match self.error {
            Some(error) => Outcome::Refused(error),
            None => Outcome::WrongState,
        }
    }
}
