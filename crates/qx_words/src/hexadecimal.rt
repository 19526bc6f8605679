//! Words of hexadecimal digits.

ghost use Rattle.std.specs.Prelude.{◌≡◌, IfOk};
ghost use Rattle.qx_words.specs.Words.{bytes_in_word, hex_byte_of};

use hex::FromHexError;
use qx_types::{Bytes, NoMemory};
use std::alloc::Global;

/// Bytes as pairs of hexadecimal digits, or `-` for none.
#[tactic(auto, unfolding(crate::specs::Words::bytes_in_word))]
pub fn bytes(alloc: Global, word: &[u8]) -> Result<Option<Bytes>, NoMemory>
    ensures bytes { IfOk result (λ bytes. bytes ≡ bytes_in_word word.now) }
{
    if word == b"-".as_slice() {
        return Ok(Some(Bytes::new(alloc)));
    }
    match hex::decode(alloc, word) {
        Ok(bytes) => Ok(Some(Bytes::from_vec(bytes))),
        Err(FromHexError::OutOfMemory) => Err(NoMemory),
        Err(_) => Ok(None),
    }
}

/// One byte as two hexadecimal digits.
#[tactic(auto, unfolding(crate::specs::Words::hex_byte_of))]
pub fn hex_byte(word: &[u8]) -> Option<u8>
    ensures byte { result ≡ hex_byte_of word.now }
{
    let mut bytes = [0];
    match hex::decode_to_slice(word, &mut bytes) {
        Ok(()) => Some(bytes[0]),
        Err(_) => None,
    }
}
