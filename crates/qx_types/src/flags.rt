ghost use Rattle.std.specs.Prelude.{⊤, ◌≡◌, ◌==◌, [], ◌∷◌, codes};
ghost use Rattle.qx_types.specs.Flags.{condition_table, flag_table};

use bitflags::{Flag, Flags, bitflag_items};

/// How a file is to be opened (C Library Reference: `open`; the bits are this profile).
#[derive(Clone, Copy, Debug, PartialEq, Eq)]
pub struct OFlags(pub u16);

bitflag_items! {
    impl OFlags: u16 {
        const READ = 1;
        const WRITE = 2;
        const CREAT = 4;
        const EXCL = 8;
        const TRUNC = 16;
        const APPEND = 32;
        const NONBLOCK = 64;
    }
}

impl Flags for OFlags {
    type Bits = u16;

    ghost exact = { ⊤ };

    ghost table = { flag_table };

    ghost set_of = { λ flags. flags.0 };

    fn flags<'a>() -> &'a [Flag<OFlags>] {
        OFlags::FLAGS
    }

    fn bits(&self) -> u16 {
        self.0
    }

    fn from_bits_retain(bits: u16) -> OFlags {
        OFlags(bits)
    }
}

/// What a client wants to be told of (C Library Reference: `ionotify`; the bits are this profile).
#[derive(Clone, Copy, Debug, PartialEq, Eq)]
pub struct Conds(pub u8);

bitflag_items! {
    impl Conds: u8 {
        const INPUT = 1;
        const OUTPUT = 2;
    }
}

impl Flags for Conds {
    type Bits = u8;

    ghost exact = { ⊤ };

    ghost table = { condition_table };

    ghost set_of = { λ conditions. conditions.0 };

    fn flags<'a>() -> &'a [Flag<Conds>] {
        Conds::FLAGS
    }

    fn bits(&self) -> u8 {
        self.0
    }

    fn from_bits_retain(bits: u8) -> Conds {
        Conds(bits)
    }
}
