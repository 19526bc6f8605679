ghost use Rattle.std.specs.Prelude.{◌≡◌, ℕ, ◌<◌, ◌≤◌, ◌↔◌, IfNone, IfSome, IsTrue, slice_index};
ghost use Rattle.qx_sh.specs.Options.{WritesLimit};

/// The largest number of bytes that a script may be allowed to have.
pub const LARGEST_LIMIT: usize = 16_777_216;

/// The number of bytes that a script may have where the command line names none.
pub const DEFAULT_LIMIT: usize = 1_048_576;

/// What the command line asks for.
#[derive(Clone, Copy, Debug, PartialEq, Eq)]
pub struct Options {
    /// The number of bytes that the script may have.
    pub limit: usize,
    ghost nonzero: { 1 ≤ limit },
    ghost bounded: { limit ≤ 16_777_216 },
}

impl Default for Options {
    ghost use Rattle.std.specs.Prelude.{◌≡◌};
    ghost use Rattle.qx_sh.specs.declared.limit.TheConstants.{DEFAULT_LIMIT};

    ghost is_default = { λ options. options.limit ≡ DEFAULT_LIMIT };

    fn default() -> Options {
        Options {
            limit: DEFAULT_LIMIT,
        }
    }
}

impl Options {
    /// The options with the limit that the text writes, none where it writes no limit.
    pub fn with_limit_text(text: &str) -> Option<Options>
        ensures written { IfSome result (λ options. WritesLimit text.now options.limit) }
        ensures none { IfNone result ((limit : ℕ) → ¬ WritesLimit text.now limit) }
    {
        let limit = read_limit(text)?;
        Some(Options { limit })
    }
}

// The limit that the text writes.
fn read_limit(text: &str) -> Option<usize>
    ensures written { IfSome result (λ limit. WritesLimit text.now limit) }
    ensures none { IfNone result ((limit : ℕ) → ¬ WritesLimit text.now limit) }
{
    if !begins_with_nonzero_digit(text) {
        return None;
    }
    match text.parse::<usize>() {
        Ok(limit) if limit <= LARGEST_LIMIT => Some(limit),
        _ => None,
    }
}

// Whether the text begins with a digit other than zero, and so with no sign.
fn begins_with_nonzero_digit(text: &str) -> bool
    ensures { IsTrue result ↔ ((48 < slice_index text.now 0) × (slice_index text.now 0 ≤ 57)) }
{
    matches!(text.as_bytes().first(), Some(b'1'..=b'9'))
}
