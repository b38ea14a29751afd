//! A journal that goes on.
ghost use Rattle.std.specs.Prelude.{◌≡◌, ◌⊎◌, ◌+◌, ◌<◌, ◌≤◌, ◌↔◌, ◌++◌, ◌∷◌, [], ℕ, List, length, IsSome, IfErr, IfOk, IsErrOf};
ghost use Rattle.cs_base.specs.Outside.{HasCause};
ghost use Rattle.cs_io.specs.declared.link.MemInput.{MemInput};
ghost use Rattle.cs_disk.specs.Disk.{Holds};
ghost use Rattle.cs_disk.specs.Moments.{LeavesOnly};
ghost use Rattle.cs_journal.specs.declared.limits.TheConstants.{MOST_JOURNAL};
ghost use Rattle.cs_journal.specs.Records.{record_bytes, input_in, InputFits};
ghost use Rattle.cs_journal.specs.Journal.{Survives};

use crate::error::JournalError;
use crate::given::{Given, record_and_gate, record_length};
use crate::head::head_of;
use crate::limits::MOST_JOURNAL;
use crate::through::write_through;
use cs_disk::Disk;
use cs_hash::Digest;
use std::alloc::Global;

/// The place of the first gate that is closed.
#[derive(Drop)]
pub struct Journal {
    pub end: u64,
}

impl Journal {
    ghost use Rattle.cs_journal.specs.Keeping.{IsKept};

    /// A journal of the node of this id, with nothing kept, whatever the disk had. Where it is
    /// refused it is to be made again.
    pub fn make<D: Disk>(alloc: Global, disk: &mut D, id: &Digest) -> Result<Journal, JournalError>
        ensures kept { IsSome (D.content disk.old) → IfOk result (λ journal.
            IsKept D.content D.may_leave id.now [] journal disk.new) }
        ensures place { IfOk result (λ journal. Holds (D.content disk.new) (journal.end + 1)) }
        ensures fault { HasCause (D.faults disk.old) (D.faults disk.new)
            (IsErrOf result JournalError.DiskFault) }
        ensures only { IfErr result (λ error.
            (error ≡ JournalError.DiskFault) ⊎ (error ≡ JournalError.Memory)) }
    {
        let mut file = head_of(alloc, id)?;
        file.u8(0)?;
        write_through(disk, 0, &file.into_bytes())?;
        Ok(Journal { end: 36 })
    }

    /// Keeps one more input: behind the closed gate its record is written, with a closed gate of its
    /// own; once that is on the disk, the gate before it is opened. Where it is refused the journal
    /// is to be read again.
    pub fn append<D: Disk>(
        self,
        alloc: Global,
        disk: &mut D,
        given: Given<'_>,
    ) -> Result<Journal, JournalError>
        requires place { Holds (D.content disk.old) (self.end + 1) }
        requires fits { InputFits (input_in given) }

        // It is kept, and from then on a crash leaves it.
        ensures kept { (id : List ℕ) (inputs : List MemInput)
            → IsKept D.content D.may_leave id inputs self disk.old → IfOk result (λ journal.
            IsKept D.content D.may_leave id (inputs ++ input_in given.entry ∷ []) journal disk.new) }

        // A crash at any moment leaves the inputs from before, with this one or without.
        ensures crash { (id : List ℕ) (inputs : List MemInput)
            → IsKept D.content D.may_leave id inputs self disk.old
            → LeavesOnly D.moment D.left_since disk.old disk.new
            (Survives id inputs (input_in given.entry)) }

        ensures place { IfOk result (λ journal. Holds (D.content disk.new) (journal.end + 1)) }
        ensures full { IsErrOf result JournalError.Full
            ↔ (MOST_JOURNAL < self.end + length (record_bytes (input_in given.entry)) + 2) }
        ensures full_keeps { IsErrOf result JournalError.Full → disk.new ≡ disk.old }
        ensures fault { HasCause (D.faults disk.old) (D.faults disk.new)
            (IsErrOf result JournalError.DiskFault) }
        ensures only { IsErrOf result JournalError.BadJournal → ⊥ }
    {
        let room = MOST_JOURNAL.saturating_sub(self.end);
        if room < record_length(given) as u64 + 2 {
            return Err(JournalError::Full);
        }
        self.commit(alloc, disk, given)
    }

    // Keeps one more input, for which there is room.
    fn commit<D: Disk>(
        self,
        alloc: Global,
        disk: &mut D,
        given: Given<'_>,
    ) -> Result<Journal, JournalError>
        requires place { Holds (D.content disk.old) (self.end + 1) }
        requires fits { InputFits (input_in given) }
        requires room { self.end + length (record_bytes (input_in given)) + 2 ≤ MOST_JOURNAL }
        ensures kept { (id : List ℕ) (inputs : List MemInput)
            → IsKept D.content D.may_leave id inputs self disk.old → IfOk result (λ journal.
            IsKept D.content D.may_leave id (inputs ++ input_in given.entry ∷ []) journal disk.new) }
        ensures crash { (id : List ℕ) (inputs : List MemInput)
            → IsKept D.content D.may_leave id inputs self disk.old
            → LeavesOnly D.moment D.left_since disk.old disk.new
            (Survives id inputs (input_in given.entry)) }
        ensures place { IfOk result (λ journal. Holds (D.content disk.new) (journal.end + 1)) }
        ensures fault { HasCause (D.faults disk.old) (D.faults disk.new)
            (IsErrOf result JournalError.DiskFault) }
        ensures only { IfErr result (λ error.
            (error ≡ JournalError.DiskFault) ⊎ (error ≡ JournalError.Memory)) }
    {
        let record = record_and_gate(alloc, given)?;
        write_through(disk, self.end + 1, &record)?;
        write_through(disk, self.end, &[1])?;
        Ok(Journal {
            end: self.end + record.len() as u64,
        })
    }
}
