ghost use Rattle.std.specs.Prelude.{◌≡◌};
ghost use Rattle.qx_wire.specs.Laws.{IfKnown};
ghost use Rattle.qx_wire.specs.Reading.{meaning};
ghost use Rattle.qx_wire.specs.Table.{Spells};

use crate::message::Meaning;
use crate::reading::cut;
use qx_types::MessageBytes;
use std::marker::Model;

/// The bytes of a message together with what they mean; contracts see the bytes.
#[derive(Debug, Drop)]
pub struct Parsed {
    bytes: MessageBytes,
    is_malformed: bool,
}

impl Model for Parsed {
    ghost use Rattle.std.specs.Prelude.{◌≡◌, List, ℕ, if◌then◌else◌};
    ghost use Rattle.qx_wire.specs.declared.message.Meaning.TheVariants.{Malformed};
    ghost use Rattle.qx_wire.specs.Reading.{cut, meaning};

    ghost Value = { List ℕ };

    ghost view = { λ p. p.bytes };

    ghost invariant = { λ p. meaning p.bytes ≡ (if p.is_malformed then Malformed else cut p.bytes) };
}

impl Parsed {
    /// Reads the bytes and keeps them. The bytes of paths and names are looked at here, and not again by `meaning`; the
    /// bytes that a WRITE has are looked at by neither.
    #[tactic(auto, unfolding(crate::specs::Reading::meaning))]
    pub fn read(bytes: MessageBytes) -> Parsed
        ensures bytes { result ≡ bytes }
    {
        let is_malformed = matches!(meaning(bytes.as_slice()), Meaning::Malformed);
        Parsed {
            bytes,
            is_malformed,
        }
    }

    /// The bytes that were read.
    pub fn bytes(&self) -> &MessageBytes
        ensures bytes { result.now ≡ self.now }
    {
        &self.bytes
    }

    /// The bytes that were read, in their memory.
    pub fn into_bytes(self) -> MessageBytes
        ensures bytes { result ≡ self }
    {
        let Parsed { bytes, .. } = self;
        bytes
    }

    /// What the bytes mean. A message lasts as long as the bytes, in which its texts stand.
    pub fn meaning(&self) -> Meaning<'_>
        ensures meaning { result ≡ meaning self.now }
        ensures spelled { IfKnown result (λ message. Spells message self.now) }
    {
        if self.is_malformed {
            Meaning::Malformed
        } else {
            cut(self.bytes.as_slice(), false)
        }
    }
}

/// What bytes mean that are not kept. `Parsed` is for those whose meaning is asked for more than once.
#[tactic(auto, unfolding(crate::specs::Reading::meaning))]
pub fn meaning(bytes: &[u8]) -> Meaning<'_>
    ensures meaning { result ≡ meaning bytes.now }
{
    cut(bytes, true)
}
