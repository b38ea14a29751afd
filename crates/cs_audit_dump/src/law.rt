//! What is printed of dumps is read again.
ghost use Rattle.std.specs.Prelude.{ℕ};
ghost use Rattle.cs_audit_dump.specs.Again.{DumpIsReadAgain};
ghost use Rattle.cs_audit_dump.specs.Before.{DumpIsReadBehind};

/// A dump of which every part has an encoding is read of its text, where that is within the limit.
pub fn printed_dumps_are_read()
    ensures { (limit : ℕ) → DumpIsReadAgain limit }
{}

/// A text that is read as a dump is so behind any lines of which none is `dump` alone.
///
/// It does nothing: its contract is a theorem, which a caller has by calling it.
pub fn dumps_are_read_behind_lines()
    ensures { (limit : ℕ) → DumpIsReadBehind limit }
{}
