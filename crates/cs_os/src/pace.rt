//! When a link gives its ticks.
ghost use Rattle.std.specs.Prelude.{◌≡◌, ◌+◌, ◌-◌, ◌^◌, min};
ghost use Rattle.cs_os.specs.Pace.{is_tick_due, rest_until_tick, next_of};

/// A tick comes so many milliseconds after the last one, where nothing else is told.
pub const TICK: u64 = 20;

/// Where no clock tells the time, a tick comes behind so many datagrams without one.
pub const TICK_WITHOUT_CLOCK: u64 = 16;

/// What a link does next.
#[derive(Clone, Copy, Debug, PartialEq, Eq)]
pub enum Next {
    /// It gives a tick.
    Tick,
    /// It looks for a datagram, waits for one at most so many milliseconds, and gives a tick where
    /// none comes.
    Look(u64),
}

/// How many milliseconds lie between ticks, and how many datagrams came since the last one.
#[derive(Clone, Copy)]
pub struct Pace {
    pub tick: u64,
    pub came: u64,
}

fn is_due(tick: u64, passed: Option<u64>, came: u64) -> bool
    ensures { result ≡ is_tick_due tick passed came }
{
    match passed {
        Some(passed) => passed >= tick,
        None => came >= TICK_WITHOUT_CLOCK,
    }
}

fn rest_until_tick(tick: u64, passed: Option<u64>) -> u64
    ensures { result ≡ rest_until_tick tick passed }
{
    match passed {
        Some(passed) => tick.saturating_sub(passed),
        None => tick,
    }
}

impl Pace {
    /// That of a link with so many milliseconds between its ticks, which was bound just now.
    pub fn new(tick: u64) -> Self
        ensures tick { result.tick ≡ tick }
        ensures came { result.came ≡ 0 }
    {
        Pace { tick, came: 0 }
    }

    /// What comes next, so many milliseconds after the last tick, if a clock tells that. Two ticks
    /// follow one another only where no datagram waits.
    pub fn next(&self, passed: Option<u64>) -> Next
        ensures { result ≡ next_of self.now.tick passed self.now.came }
    {
        if self.came > 0 && is_due(self.tick, passed, self.came) {
            Next::Tick
        } else {
            Next::Look(rest_until_tick(self.tick, passed))
        }
    }

    /// A datagram came.
    pub fn count_datagram(&mut self)
        ensures came { self.new.came ≡ min (self.old.came + 1) (2 ^ 64 - 1) }
        ensures tick { self.new.tick ≡ self.old.tick }
    {
        self.came = self.came.saturating_add(1);
    }

    /// A tick is given.
    pub fn begin_again(&mut self)
        ensures came { self.new.came ≡ 0 }
        ensures tick { self.new.tick ≡ self.old.tick }
    {
        self.came = 0;
    }
}
