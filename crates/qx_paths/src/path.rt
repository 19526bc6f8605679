ghost use Rattle.std.specs.Prelude.{◌≡◌, ◌<◌, ◌≤◌, ◌==◌, [], ◌∷◌, false, length, position, true, IfOk, IfSome, IsOk};
ghost use Rattle.std.specs.Option.{option_map};
ghost use Rattle.qx_wire.specs.Rests.{components_of, is_rest, joined};
ghost use Rattle.qx_paths.specs.Prefixes.{behind, is_under};
ghost use Rattle.qx_paths.specs.Paths.{begins_with_slash, component_fault, first_fault, path_components, read_path};
ghost use Rattle.qx_paths.specs.inner.Paths.{walked};

use qx_types::{Bytes, Errno, Limits, NoMemory};
use qx_wire::rest::is_component;
use std::alloc::Global;
use std::marker::Model;

/// A path that was read, which contracts see as its components, or what such a path has behind its first components. The
/// bytes stand elsewhere (System Architecture: pathname management; that a path has no `.` and no `..` is this profile).
#[derive(Debug, Drop)]
pub struct Path<'a> {
    bytes: &'a [u8],
}

impl<'a> Model for Path<'a> {
    ghost use Rattle.std.specs.Prelude.{◌≡◌, ◌≤◌, List, ℕ, true, length};
    ghost use Rattle.qx_types.specs.declared.limits.TheConstants.Limits.{PATH};
    ghost use Rattle.qx_paths.specs.inner.Paths.{IsShortPath};
    ghost use Rattle.qx_paths.specs.Paths.{path_components};

    ghost Value = { List (List ℕ) };

    ghost view = { λ p. path_components p.bytes.now };

    ghost invariant = { λ p. IsShortPath p.bytes.now };
}

/// The components that a walk has before it, the next one first.
#[derive(Debug, Drop)]
pub struct Components<'a> {
    left: &'a [u8],
}

impl<'a> Model for Components<'a> {
    ghost use Rattle.std.specs.Prelude.{List, ℕ};
    ghost use Rattle.qx_paths.specs.Paths.{path_components};

    ghost Value = { List (List ℕ) };

    ghost view = { λ c. path_components c.left.now };
}

/// Reads a path, which keeps the bytes where they stand. ENAMETOOLONG for more than 1,024 bytes; EINVAL where the first
/// byte is no `/`; then of the first component from the left that is none, empty ones left out: ENAMETOOLONG for more than
/// 64 bytes, EINVAL for `.`, `..` or a zero byte (C Library Reference: `open`; the order is this profile).
pub fn read_path(bytes: &[u8]) -> Result<Path<'_>, Errno>
    ensures read { result ≡ read_path bytes.now }
{
    if bytes.len() > Limits::PATH {
        return Err(Errno::ENAMETOOLONG);
    }
    if !begins_with_slash(bytes) {
        return Err(Errno::EINVAL);
    }
    match fault_in(bytes) {
        Some(errno) => Err(errno),
        None => Ok(Path { bytes }),
    }
}

impl<'a> Path<'a> {
    /// The end of a path, which has no components.
    #[tactic(auto, unfolding(crate::specs::Paths::path_components))]
    pub fn empty() -> Path<'a>
        ensures none { result ≡ [] }
    {
        Path { bytes: &[] }
    }

    /// The components, to be walked from the first one on.
    pub fn components(&self) -> Components<'a>
        ensures components { result ≡ self.now }
    {
        Components { left: self.bytes }
    }

    /// What the path has behind a prefix of whole components, if it begins with that (System Architecture: pathname
    /// management).
    pub fn behind(&self, prefix: &[Bytes]) -> Option<Path<'a>>
        ensures behind { result ≡ behind self.now prefix.now }
    {
        let left = left_behind(self.bytes, prefix)?;
        Some(Path { bytes: left })
    }

    /// The components with one `/` between each two, as they stand in a message; where there is none, no memory is wanted.
    #[tactic(auto, using(crate::proofs::ReadLemmas::joined_more, crate::proofs::ReadLemmas::rest_again))]
    pub fn joined(&self, alloc: Global) -> Result<Bytes, NoMemory>
        ensures joined { IfOk result (λ bytes. bytes ≡ joined self.now) }
        ensures read_back { IfOk result (λ bytes. components_of bytes ≡ self.now) }
        ensures sure { self.now ≡ [] → IsOk result }
    {
        self.know();
        let mut walk = self.components();
        let Some(first) = walk.next() else {
            return Ok(Bytes::new(alloc));
        };
        let mut text = Vec::from_slice(alloc, first)?;
        while let Some(component) = walk.next() {
            text.push(b'/')?;
            text.extend_from_slice(component)?;
        }
        Ok(Bytes::from_vec(text))
    }

    /// Does nothing: a path's components are a rest that may stand in a message.
    pub fn know(&self)
        ensures rest { is_rest self.now ≡ true }
    {
        let _ = &self.bytes;
    }

    /// Whether the path is a user's name or below it.
    pub fn is_under(&self, name: &[u8]) -> bool
        ensures under { result ≡ is_under name.now self.now }
    {
        let mut walk = self.components();
        match walk.next() {
            None => false,
            Some(first) => first == name,
        }
    }

    /// Whether the path has no component.
    pub fn is_empty(&self) -> bool
        ensures empty { result ≡ (length self.now == 0) }
    {
        first_of(self.bytes).is_none()
    }
}

impl<'a> Iterator for Components<'a> {
    ghost use Rattle.std.specs.Iterator.{YieldsFirstRef, item_count};

    type Item = &'a [u8];

    ghost next_gives = { YieldsFirstRef (λ c. c) };

    ghost remaining = { item_count (λ c. c) };

    fn next(&mut self) -> Option<&'a [u8]> {
        let (component, left) = first_of(self.left)?;
        self.left = left;
        Some(component)
    }
}

/// Whether the first byte is `/`.
fn begins_with_slash(bytes: &[u8]) -> bool
    ensures { result ≡ begins_with_slash bytes.now }
{
    match bytes.split_first() {
        None => false,
        Some((byte, _)) => *byte == b'/',
    }
}

/// Why the first component from the left that is refused is refused.
fn fault_in(bytes: &[u8]) -> Option<Errno>
    ensures { result ≡ first_fault (path_components bytes.now) }
{
    let mut walk = Components { left: bytes };
    while let Some(component) = walk.next() {
        if let Some(errno) = component_fault(component) {
            return Some(errno);
        }
    }
    None
}

/// Why a component is refused, if it is.
fn component_fault(component: &[u8]) -> Option<Errno>
    ensures { result ≡ component_fault component.now }
{
    if component.len() > Limits::COMPONENT {
        Some(Errno::ENAMETOOLONG)
    } else if is_component(component) {
        None
    } else {
        Some(Errno::EINVAL)
    }
}

/// What is left behind a prefix of whole components.
fn left_behind<'a>(bytes: &'a [u8], prefix: &[Bytes]) -> Option<&'a [u8]>
    ensures behind { option_map (λ left. path_components left.now) result ≡ behind (path_components bytes.now) prefix.now }
    ensures shorter { IfSome result (λ left. length left.now ≤ length bytes.now) }
{
    let mut left = bytes;
    for name in prefix {
        let (component, next) = first_of(left)?;
        if component != name.as_slice() {
            return None;
        }
        left = next;
    }
    Some(left)
}

/// The first component, and what is left behind it, if there is one.
fn first_of(bytes: &[u8]) -> Option<(&[u8], &[u8])>
    ensures parted { path_components bytes.now ≡ walked (option_map (λ parted. (parted.0.now, parted.1.now)) result) }
    ensures shorter { IfSome result (λ parted. length parted.1.now ≤ length bytes.now) }
{
    let named = without_slashes(bytes);
    if named.is_empty() {
        return None;
    }
    Some(cut(named))
}

/// What stands before the first `/`, and what is left behind it.
fn cut(named: &[u8]) -> (&[u8], &[u8])
    requires some { 0 < length named.now }
    requires clear { begins_with_slash named.now ≡ false }
    ensures parted { path_components named.now ≡ result.0.now ∷ path_components result.1.now }
    ensures shorter { length result.1.now ≤ length named.now }
{
    match slash_in(named) {
        None => (named, &[]),
        Some(at) => (&named[..at], &named[at + 1..]),
    }
}

/// Where the first `/` is.
fn slash_in(bytes: &[u8]) -> Option<usize>
    ensures { result ≡ position (λ byte. byte == 47) bytes.now }
{
    bytes.iter().position(|byte| *byte == b'/')
}

/// The bytes without slashes at their beginning.
#[tactic(auto, using(crate::proofs::PathLemmas::skip_slash))]
fn without_slashes(bytes: &[u8]) -> &[u8]
    ensures same { path_components result.now ≡ path_components bytes.now }
    ensures clear { begins_with_slash result.now ≡ false }
    ensures shorter { length result.now ≤ length bytes.now }
{
    let mut left = bytes;
    while let Some((first, rest)) = left.split_first() {
        if *first != b'/' {
            return left;
        }
        left = rest;
    }
    left
}
