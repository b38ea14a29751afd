//! Numbers that look random, the same at each run.
ghost use Rattle.std.specs.Prelude.{◌≡◌, ◌/◌, ◌^◌};
ghost use Rattle.cs_gen.specs.Draws.{next_state};

// A linear congruential generator, of whose states the high bits are drawn: the low ones have short
// periods.
#[derive(Drop)]
pub(crate) struct Draws {
    pub(crate) state: u64,
}

impl Draws {
    pub(crate) fn new(number: u64) -> Draws
        ensures { result.state ≡ number }
    {
        Draws { state: number }
    }

    // Goes on to the next state, and gives it.
    pub(crate) fn advance(&mut self) -> u64
        ensures state { self.new.state ≡ next_state self.old.state }
        ensures given { result ≡ next_state self.old.state }
    {
        let product = self.state.wrapping_mul(6_364_136_223_846_793_005);
        self.state = product.wrapping_add(1_442_695_040_888_963_407);
        self.state
    }

    // A number below 2^31: the next state without its 33 low bits.
    pub(crate) fn draw(&mut self) -> u64
        ensures state { self.new.state ≡ next_state self.old.state }
        ensures drawn { result ≡ next_state self.old.state / 2 ^ 33 }
    {
        self.advance() >> 33
    }
}
