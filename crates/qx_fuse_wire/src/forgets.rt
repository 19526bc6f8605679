ghost use Rattle.std.specs.Prelude.{◌≡◌, ◌*◌, length};
ghost use Rattle.qx_fuse_wire.specs.Forms.{pairs};

use crate::fields::u64_at;
use std::marker::Model;

/// Nodes, each with how many look-ups of it are forgotten, which contracts see as a list of both. The bytes stand elsewhere.
#[derive(Debug, Drop)]
pub struct Forgets<'a> {
    count: usize,
    bytes: &'a [u8],
}

impl<'a> Model for Forgets<'a> {
    ghost use Rattle.std.specs.Prelude.{List, ℕ, ◌*◌, ◌≡◌, length};
    ghost use Rattle.qx_fuse_wire.specs.Forms.{pairs};

    ghost Value = { List (ℕ × ℕ) };

    ghost view = { λ f. pairs f.count f.bytes.now };

    ghost invariant = { λ f. length f.bytes.now ≡ 16 * f.count };
}

impl<'a> Forgets<'a> {
    /// So many pairs, where their bytes stand.
    pub fn new(count: usize, bytes: &'a [u8]) -> Forgets<'a>
        requires there { length bytes.now ≡ 16 * count }
        ensures pairs { result ≡ pairs count bytes.now }
    {
        Forgets { count, bytes }
    }
}

impl<'a> Iterator for Forgets<'a> {
    ghost use Rattle.std.specs.Iterator.{YieldsFirst, item_count};

    type Item = (u64, u64);

    ghost next_gives = { YieldsFirst (λ f. f) };

    ghost remaining = { item_count (λ f. f) };

    #[tactic(auto, using(crate::proofs::PairLemmas::pairs_next))]
    fn next(&mut self) -> Option<(u64, u64)> {
        if self.count == 0 {
            return None;
        }
        let (node, rest) = u64_at(self.bytes)?;
        let (lookups, rest) = u64_at(rest)?;
        self.count -= 1;
        self.bytes = rest;
        Some((node, lookups))
    }
}
