//! How a command ends.
ghost use Rattle.std.specs.Prelude.{◌≡◌};
ghost use Rattle.cs_io.specs.Answers.{closing_status};

use cs_base::WriteError;

/// The status that a program ends with, by how the writing of what it prints last went: this one
/// where all was written, 6 where the sink failed, and 8 for want of memory.
pub fn closing(written: Result<(), WriteError>, status: u8) -> u8
    ensures { result ≡ closing_status written status }
{
    match written {
        Ok(()) => status,
        Err(WriteError::Failed) => 6,
        Err(WriteError::Memory) => 8,
    }
}
