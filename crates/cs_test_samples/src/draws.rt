//! Numbers that look random, the same at each run, for trials.

ghost use Rattle.std.specs.Prelude.{◌<◌};

/// A linear congruential generator of 64 bits, of which the high ones are taken.
#[derive(Drop)]
pub struct Draws {
    state: u64,
}

impl Draws {
    pub fn new(seed: u64) -> Draws {
        Draws { state: seed }
    }

    /// A number below this one, or 0.
    pub fn below(&mut self, count: u64) -> u64
        ensures { 0 < count → result < count }
    {
        self.state = self
            .state
            .wrapping_mul(6_364_136_223_846_793_005)
            .wrapping_add(1_442_695_040_888_963_407);
        (self.state >> 33).checked_rem(count).unwrap_or(0)
    }

    /// A small number below this one, or 0.
    pub fn small(&mut self, count: u16) -> u16
        ensures { 0 < count → result < count }
    {
        u16::try_from(self.below(u64::from(count))).unwrap_or(0)
    }
}
