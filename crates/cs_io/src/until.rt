//! How long inputs are taken.
ghost use Rattle.std.specs.Prelude.{◌≡◌, ◌-◌, ◌^◌, ◌<◌, ◌↔◌, IsTrue, false};
ghost use Rattle.cs_io.specs.Until.{IsOver};

/// How long a node or a client is given inputs.
#[derive(Clone, Copy, Debug, PartialEq, Eq)]
pub enum Until {
    /// So many inputs were taken.
    Turns(u64),
    /// So many ticks were taken and answered, or 2^64 - 1 inputs.
    Ticks(u64),
}

impl Until {
    /// Whether so many inputs are enough, of which so many are ticks.
    pub fn is_over(self, inputs: u64, ticks: u64) -> bool
        ensures over { IsTrue result ↔ IsOver self inputs ticks }
        // So a loop that counts its inputs comes to an end.
        ensures last { result ≡ false → inputs < 2 ^ 64 - 1 }
    {
        match self {
            Until::Turns(most) => inputs >= most,
            Until::Ticks(most) => ticks >= most || inputs == u64::MAX,
        }
    }
}
