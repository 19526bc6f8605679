//! Pseudo-random numbers.

ghost use Rattle.std.specs.Prelude.{◌<◌};

/// A linear congruential generator.
#[derive(Drop)]
pub struct Dice {
    state: u64,
}

impl Dice {
    pub fn new(state: u64) -> Dice {
        Dice { state }
    }

    /// The next number below a limit, from the generator's high bits.
    pub fn below(&mut self, limit: u8) -> u8
        requires { 0 < limit }
        ensures { result < limit }
    {
        self.state = self
            .state
            .wrapping_mul(6_364_136_223_846_793_005)
            .wrapping_add(1_442_695_040_888_963_407);
        ((self.state >> 33) % u64::from(limit)) as u8
    }

    /// True once in so many times.
    pub fn one_in(&mut self, limit: u8) -> bool
        requires { 0 < limit }
    {
        self.below(limit) == 0
    }
}
