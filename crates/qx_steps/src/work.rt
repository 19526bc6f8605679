ghost use Rattle.std.specs.Prelude.{◌≡◌};
ghost use Rattle.std.specs.Option.{option_copied};
ghost use Rattle.qx_steps.specs.Held.{bytes_of_work};

use qx_types::{MessageBytes, NoMemory};
use qx_wire::Parsed;
use thiserror::Error;

/// What a worker is to do with the item that it holds.
#[derive(Debug, Drop)]
pub enum Work {
    /// A message, whose bytes were read.
    Message(Parsed),
    Pulse,
}

impl Work {
    /// The message, with what its bytes mean; none of a pulse.
    pub fn message(&self) -> Option<&Parsed>
        ensures { option_copied result ≡ bytes_of_work self.now }
    {
        match self {
            Work::Message(message) => Some(message),
            Work::Pulse => None,
        }
    }
}

/// What a worker holds, lent.
#[derive(Clone, Copy, Debug)]
pub enum WorkRef<'a> {
    /// The bytes of a message.
    Message(&'a MessageBytes),
    Pulse,
}

/// Why an item was not done. Nothing changed.
#[derive(Clone, Copy, PartialEq, Eq, Debug, Error)]
pub enum PerformFault {
    #[error("out of memory")]
    NoMemory,
    #[error("the work is not what the worker holds")]
    Stale,
}

impl From<NoMemory> for PerformFault {
    ghost use Rattle.std.specs.Prelude.{◌≡◌};
    ghost use Rattle.qx_steps.specs.declared.work.PerformFault.TheVariants as fault;

    ghost from_gives = { λ _ given. given ≡ fault.NoMemory };

    fn from(_error: NoMemory) -> PerformFault {
        PerformFault::NoMemory
    }
}
