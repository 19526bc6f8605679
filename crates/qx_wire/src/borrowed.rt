ghost use Rattle.std.specs.Prelude.{◌≡◌};

use std::marker::Model;

/// Bytes that stand elsewhere, which contracts see as a list of numbers.
#[derive(Debug, Drop)]
pub struct BorrowedBytes<'a> {
    bytes: &'a [u8],
}

impl<'a> Model for BorrowedBytes<'a> {
    ghost use Rattle.std.specs.Prelude.{List, ℕ};

    ghost Value = { List ℕ };

    ghost view = { λ b. b.bytes.now };
}

impl<'a> BorrowedBytes<'a> {
    /// The bytes of a slice, where they stand.
    pub fn new(bytes: &'a [u8]) -> BorrowedBytes<'a>
        ensures bytes { result ≡ bytes.now }
    {
        BorrowedBytes { bytes }
    }

    /// The bytes as a slice, which may be kept as long as what they stand in.
    pub fn as_slice(&self) -> &'a [u8]
        ensures bytes { result.now ≡ self.now }
    {
        self.bytes
    }
}
