//! What is printed of a schedule is read as that schedule.
ghost use Rattle.std.specs.Prelude.{ℕ};
ghost use Rattle.cs_sched.specs.Again.{ScheduleIsReadAgain};

/// A schedule that was read of a text is read again of the text that is printed of it, where that
/// is within the limit: the numbers of lines alone can differ.
pub fn printed_schedules_are_read()
    ensures { (limit : ℕ) → ScheduleIsReadAgain limit }
{}
