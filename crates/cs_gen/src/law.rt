//! What every generated schedule meets.
ghost use Rattle.std.specs.Prelude.{ℕ, ◌≤◌};
ghost use Rattle.cs_gen.specs.Sound.{IsPlayableUnlessTwice, HasOwnLines};
ghost use Rattle.cs_gen.specs.declared.limits.TheConstants.{MOST_SIZE};

/// A generated schedule can be played, unless two of its coins have one key, and its events have
/// the numbers of the lines of its own text.
pub fn generated_schedules_are_playable()
    ensures playable { (number size : ℕ) → size ≤ MOST_SIZE → IsPlayableUnlessTwice number size }
    ensures lines { (number size : ℕ) → HasOwnLines number size }
{}
