//! Numbers and names at the front of bytes.
ghost use Rattle.std.specs.Prelude.{◌≡◌, ◌==◌, position};
ghost use Rattle.std.specs.Int.{w16, w32, w64};
ghost use Rattle.std.specs.Option.{option_map};
ghost use Rattle.qx_fuse_wire.specs.Forms.{behind, has_no_slash, name_at, text_at};
ghost use Rattle.qx_wire.specs.Reading.{number_at};

/// A number of 16 bits, and the bytes behind it.
pub fn u16_at(bytes: &[u8]) -> Option<(u16, &[u8])>
    ensures { option_map (λ x. (x.0, x.1.now)) result ≡ number_at w16 bytes.now }
{
    let [b0, b1, rest @ ..] = bytes else {
        return None;
    };
    Some((u16::from_le_bytes([*b0, *b1]), rest))
}

/// A number of 32 bits, and the bytes behind it.
pub fn u32_at(bytes: &[u8]) -> Option<(u32, &[u8])>
    ensures { option_map (λ x. (x.0, x.1.now)) result ≡ number_at w32 bytes.now }
{
    let [b0, b1, b2, b3, rest @ ..] = bytes else {
        return None;
    };
    Some((u32::from_le_bytes([*b0, *b1, *b2, *b3]), rest))
}

/// A number of 64 bits, and the bytes behind it.
pub fn u64_at(bytes: &[u8]) -> Option<(u64, &[u8])>
    ensures { option_map (λ x. (x.0, x.1.now)) result ≡ number_at w64 bytes.now }
{
    let [b0, b1, b2, b3, b4, b5, b6, b7, rest @ ..] = bytes else {
        return None;
    };
    Some((
        u64::from_le_bytes([*b0, *b1, *b2, *b3, *b4, *b5, *b6, *b7]),
        rest,
    ))
}

/// What stands behind so many bytes.
pub fn behind(count: usize, bytes: &[u8]) -> Option<&[u8]>
    ensures { option_map (λ x. x.now) result ≡ behind count bytes.now }
{
    if bytes.len() < count {
        return None;
    }
    Some(&bytes[count..])
}

/// The bytes before the first zero byte, if there are some, and those behind it.
#[tactic(auto, unfolding(crate::specs::Forms::text_at))]
pub fn text_at(bytes: &[u8]) -> Option<(&[u8], &[u8])>
    ensures { option_map (λ x. (x.0.now, x.1.now)) result ≡ text_at bytes.now }
{
    let end = zero_in(bytes)?;
    if end == 0 {
        return None;
    }
    Some((&bytes[..end], &bytes[end + 1..]))
}

/// The same of a name, in which no byte is `/`.
#[tactic(auto, unfolding(crate::specs::Forms::name_at))]
pub fn name_at(bytes: &[u8]) -> Option<(&[u8], &[u8])>
    ensures { option_map (λ x. (x.0.now, x.1.now)) result ≡ name_at bytes.now }
{
    let (name, rest) = text_at(bytes)?;
    if has_no_slash(name) {
        Some((name, rest))
    } else {
        None
    }
}

/// Where the first zero byte is.
fn zero_in(bytes: &[u8]) -> Option<usize>
    ensures { result ≡ position (λ byte. byte == 0) bytes.now }
{
    bytes.iter().position(|byte| *byte == 0)
}

/// Whether no byte is `/`.
fn has_no_slash(bytes: &[u8]) -> bool
    ensures { result ≡ has_no_slash bytes.now }
{
    bytes.iter().all(|byte| *byte != b'/')
}
