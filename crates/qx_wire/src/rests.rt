ghost use Rattle.std.specs.Prelude.{◌≡◌};
ghost use Rattle.qx_wire.specs.Rests.{AreRests, components_of, rests_bytes, rests_of};

use crate::rest::Rest;
use std::marker::Model;

/// What two paths have behind one mount, which contracts see as the components of the one and of the other. The bytes stand
/// elsewhere, as a rename's body: how many the first has, in 16 bits, and both, one behind the other (this profile).
#[derive(Debug, Drop)]
pub struct Rests<'a> {
    bytes: &'a [u8],
}

impl<'a> Model for Rests<'a> {
    ghost use Rattle.std.specs.Prelude.{List, ℕ};
    ghost use Rattle.qx_wire.specs.Rests.{AreRests, rests_of};

    ghost Value = { List (List ℕ) × List (List ℕ) };

    ghost view = { λ r. rests_of r.bytes.now };

    ghost invariant = { λ r. AreRests r.bytes.now };
}

impl<'a> Rests<'a> {
    /// The bytes of two rests, where they stand.
    pub fn new(bytes: &'a [u8]) -> Rests<'a>
        requires rests { AreRests bytes.now }
        ensures rests { result ≡ rests_of bytes.now }
    {
        Rests { bytes }
    }

    /// The bytes, which may be kept as long as what they stand in.
    pub fn as_slice(&self) -> &'a [u8]
        ensures bytes { result.now ≡ rests_bytes self.now }
    {
        spelled(self.bytes)
    }

    /// The first one.
    pub fn from(&self) -> Rest<'a>
        ensures from { result ≡ self.now.0 }
    {
        Rest::new(self.parts().0)
    }

    /// The second one.
    pub fn to(&self) -> Rest<'a>
        ensures to { result ≡ self.now.1 }
    {
        Rest::new(self.parts().1)
    }

    /// The bytes of each.
    #[tactic(auto, unfolding(crate::specs::Rests::rests_of))]
    fn parts(&self) -> (&'a [u8], &'a [u8])
        ensures from { components_of result.0.now ≡ self.now.0 }
        ensures to { components_of result.1.now ≡ self.now.1 }
    {
        let [l0, l1, both @ ..] = self.bytes else {
            return (&[], &[]);
        };
        let len = u16::from_le_bytes([*l0, *l1]);
        both.split_at(usize::from(len))
    }
}

/// Bytes that are two rests are the one spelling of these.
fn spelled(bytes: &[u8]) -> &[u8]
    requires rests { AreRests bytes.now }
    ensures bytes { result.now ≡ rests_bytes (rests_of bytes.now) }
{
    bytes
}
