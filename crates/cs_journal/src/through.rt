//! Calls of a disk, with the reason of a refusal.
ghost use Rattle.std.specs.Prelude.{◌≡◌, ◌⊎◌, ◌+◌, ℕ, List, length, take, drop, Some, IfErr, IfOk, OnOk, IsErrOf, option_map};
ghost use Rattle.cs_base.specs.Outside.{HasCause};
ghost use Rattle.cs_disk.specs.Disk.{Holds, Only, over};
ghost use Rattle.cs_disk.specs.Moments.{LeavesOnly};
ghost use Rattle.cs_journal.specs.Moments.{TearsFrom, IsUntouched};

use crate::error::JournalError;
use cs_disk::{Disk, DiskRead, Length, Synced, Wrote};

/// Syncs the disk.
pub fn keep<D: Disk>(disk: &mut D) -> Result<(), JournalError>
    ensures durable { (file : List ℕ) → D.content disk.old ≡ Some file
        → OnOk result (Only file (D.may_leave disk.new)) }
    ensures untouched { IsUntouched D.content D.may_leave D.moment D.left_since disk.old disk.new }
    ensures fault { HasCause (D.faults disk.old) (D.faults disk.new)
        (IsErrOf result JournalError.DiskFault) }
    ensures only { IfErr result (λ error. error ≡ JournalError.DiskFault) }
{
    match disk.sync() {
        Synced::Done => Ok(()),
        Synced::Failed => Err(JournalError::DiskFault),
    }
}

/// The length of the file.
pub fn measure<D: Disk>(disk: &mut D) -> Result<u64, JournalError>
    ensures length { (file : List ℕ) → D.content disk.old ≡ Some file
        → IfOk result (λ n. n ≡ length file) }
    ensures holds { IfOk result (λ n. Holds (D.content disk.old) n) }
    ensures untouched { IsUntouched D.content D.may_leave D.moment D.left_since disk.old disk.new }
    ensures fault { HasCause (D.faults disk.old) (D.faults disk.new)
        (IsErrOf result JournalError.DiskFault) }
    ensures only { IfErr result (λ error. error ≡ JournalError.DiskFault) }
{
    match disk.length() {
        Length::Is(length) => Ok(length),
        Length::Failed => Err(JournalError::DiskFault),
    }
}

/// Reads what stands at this place.
pub fn read<D: Disk>(disk: &mut D, at: u64, buf: &mut [u8]) -> Result<(), JournalError>
    requires { Holds (D.content disk.old) (at + length buf.old) }
    ensures bytes { (file : List ℕ) → D.content disk.old ≡ Some file
        → OnOk result (buf.new ≡ take (length buf.new) (drop at file)) }
    ensures untouched { IsUntouched D.content D.may_leave D.moment D.left_since disk.old disk.new }
    ensures fault { HasCause (D.faults disk.old) (D.faults disk.new)
        (IsErrOf result JournalError.DiskFault) }
    ensures only { IfErr result (λ error. error ≡ JournalError.DiskFault) }
{
    match disk.read_at(at, buf) {
        DiskRead::Done => Ok(()),
        DiskRead::Failed => Err(JournalError::DiskFault),
    }
}

/// Writes the bytes at this place, and syncs them.
pub fn write_through<D: Disk>(disk: &mut D, at: u64, bytes: &[u8]) -> Result<(), JournalError>
    requires { Holds (D.content disk.old) at }
    ensures written { OnOk result (D.content disk.new
        ≡ option_map (λ file. over file at bytes.now) (D.content disk.old)) }
    ensures holds { OnOk result (Holds (D.content disk.new) (at + length bytes.now)) }
    ensures no_shorter { (n : ℕ) → Holds (D.content disk.old) n
        → OnOk result (Holds (D.content disk.new) n) }
    ensures durable { (file : List ℕ) → D.content disk.new ≡ Some file
        → OnOk result (Only file (D.may_leave disk.new)) }
    ensures crash { LeavesOnly D.moment D.left_since disk.old disk.new
        (TearsFrom at (length bytes.now) (D.may_leave disk.old)) }
    ensures fault { HasCause (D.faults disk.old) (D.faults disk.new)
        (IsErrOf result JournalError.DiskFault) }
    ensures only { IfErr result (λ error.
        (error ≡ JournalError.DiskFault) ⊎ (error ≡ JournalError.Memory)) }
{
    match disk.write_at(at, bytes) {
        Wrote::Done => keep(disk),
        Wrote::Failed => Err(JournalError::DiskFault),
        Wrote::Memory => Err(JournalError::Memory),
    }
}
