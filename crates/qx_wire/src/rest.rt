ghost use Rattle.std.specs.Prelude.{◌≡◌, ◌==◌, ◌∷◌, Some, position};
ghost use Rattle.std.specs.List.{list_all};
ghost use Rattle.std.specs.Option.{option_map};
ghost use Rattle.qx_wire.specs.inner.Rests.{components_left};
ghost use Rattle.qx_wire.specs.Rests.{components_of, is_component, is_dots, is_name_byte, is_rest, joined};

use qx_types::Limits;
use std::marker::Model;

/// What a path has behind its mount, which contracts see as its components. The bytes stand elsewhere: the components
/// with one `/` between each two, none for the mount's root (Writing a Resource Manager: the path of a connect message;
/// that only components are taken is this profile).
#[derive(Debug, Drop)]
pub struct Rest<'a> {
    bytes: &'a [u8],
}

impl<'a> Model for Rest<'a> {
    ghost use Rattle.std.specs.Prelude.{List, ℕ};
    ghost use Rattle.qx_wire.specs.Rests.{components_of};

    ghost Value = { List (List ℕ) };

    ghost view = { λ r. components_of r.bytes.now };
}

/// The components of a rest that a walk has before it, the next one first.
#[derive(Debug, Drop)]
pub struct Components<'a> {
    left: Option<&'a [u8]>,
}

impl<'a> Model for Components<'a> {
    ghost use Rattle.std.specs.Prelude.{List, ℕ};
    ghost use Rattle.std.specs.Option.{option_map};
    ghost use Rattle.qx_wire.specs.inner.Rests.{components_left};

    ghost Value = { List (List ℕ) };

    ghost view = { λ c. components_left (option_map (λ s. s.now) c.left) };
}

impl<'a> Rest<'a> {
    /// The bytes of a rest, where they stand; `is_good` tells whether they are one.
    pub fn new(bytes: &'a [u8]) -> Rest<'a>
        ensures components { result ≡ components_of bytes.now }
    {
        Rest { bytes }
    }

    /// The components with one `/` between each two, which may be kept as long as what they stand in.
    #[tactic(auto, using(crate::proofs::RestLemmas::joined_components))]
    pub fn as_slice(&self) -> &'a [u8]
        ensures joined { result.now ≡ joined self.now }
    {
        self.bytes
    }

    /// The components, to be walked from the first one on.
    #[tactic(auto, using(crate::proofs::RestLemmas::components_none, crate::proofs::RestLemmas::components_some))]
    pub fn components(&self) -> Components<'a>
        ensures components { result ≡ self.now }
    {
        if self.bytes.is_empty() {
            Components { left: None }
        } else {
            Components {
                left: Some(self.bytes),
            }
        }
    }

    /// Whether each component is one, and all of them joined have at most 1,024 bytes.
    pub fn is_good(&self) -> bool
        ensures good { result ≡ is_rest self.now }
    {
        if self.as_slice().len() > Limits::PATH {
            return false;
        }
        let mut walk = self.components();
        while let Some(component) = walk.next() {
            if !is_component(component) {
                return false;
            }
        }
        true
    }
}

impl<'a> Iterator for Components<'a> {
    ghost use Rattle.std.specs.Iterator.{YieldsFirstRef, item_count};

    type Item = &'a [u8];

    ghost next_gives = { YieldsFirstRef (λ c. c) };

    ghost remaining = { item_count (λ c. c) };

    fn next(&mut self) -> Option<&'a [u8]> {
        let (component, left) = first_of(self.left?);
        self.left = left;
        Some(component)
    }
}

/// What stands before the first `/`, and what is left behind it, if there is one.
#[tactic(auto, using(crate::proofs::RestLemmas::next_last, crate::proofs::RestLemmas::next_first))]
fn first_of(bytes: &[u8]) -> (&[u8], Option<&[u8]>)
    ensures { components_left (Some bytes.now) ≡ result.0.now ∷ components_left (option_map (λ s. s.now) result.1) }
{
    match slash_in(bytes) {
        None => (bytes, None),
        Some(at) => (&bytes[..at], Some(&bytes[at + 1..])),
    }
}

/// Whether the bytes are a component: 1 to 64 of them, none zero or `/`, and neither `.` nor `..`.
pub fn is_component(bytes: &[u8]) -> bool
    ensures component { result ≡ is_component bytes.now }
{
    !bytes.is_empty()
        && bytes.len() <= Limits::COMPONENT
        && !is_dots(bytes)
        && are_name_bytes(bytes)
}

/// Whether none of the bytes is zero or `/`.
fn are_name_bytes(bytes: &[u8]) -> bool
    ensures { result ≡ list_all is_name_byte bytes.now }
{
    bytes.iter().all(|byte| *byte != 0 && *byte != b'/')
}

/// Whether the bytes are `.` or `..`.
fn is_dots(bytes: &[u8]) -> bool
    ensures { result ≡ is_dots bytes.now }
{
    bytes == b".".as_slice() || bytes == b"..".as_slice()
}

/// Where the first `/` is.
fn slash_in(bytes: &[u8]) -> Option<usize>
    ensures { result ≡ position (λ byte. byte == 47) bytes.now }
{
    bytes.iter().position(|byte| *byte == b'/')
}
