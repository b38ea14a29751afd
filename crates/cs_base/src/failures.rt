//! The calls of an object in memory that are to fail.
ghost use Rattle.std.specs.Prelude.{◌≡◌, IsTrue};
ghost use Rattle.cs_base.specs.Outside.{HasCause};

use crate::sequence::Sequence;

/// The numbers of the calls that are to fail, counted from 0, with the calls and the faults so far.
/// Each count stays at 2^64 - 1 once it is there.
#[derive(Drop)]
pub struct Failures {
    pub numbers: Sequence<u32>,
    pub calls: u64,
    pub faults: u64,
}

impl Failures {
    ghost use Rattle.cs_base.specs.Failures.{uncalled, call_is_listed, CountsCall};

    /// No call has been made yet.
    pub fn new(numbers: Vec<u32>) -> Self
        ensures { result ≡ uncalled numbers.items }
    {
        Failures {
            numbers: Sequence::from_vec(numbers),
            calls: 0,
            faults: 0,
        }
    }

    /// Counts a call, and says whether it is to fail.
    pub fn is_due(&mut self) -> bool
        ensures counted { CountsCall self.old self.new (IsTrue result) }
        ensures cause { HasCause self.old.faults self.new.faults (IsTrue result) }
    {
        let due = self.is_listed();
        self.calls = self.calls.saturating_add(1);
        if due {
            self.faults = self.faults.saturating_add(1);
        }
        due
    }

    // Whether the next call is to fail.
    fn is_listed(&self) -> bool
        ensures { result ≡ call_is_listed self.now }
    {
        let numbers = self.numbers.as_slice();
        numbers
            .iter()
            .any(|number| u64::from(*number) == self.calls)
    }
}
