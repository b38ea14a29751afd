//! A journal that is read.
ghost use Rattle.std.specs.Prelude.{◌≡◌, ◌⊎◌, ◌+◌, ◌≤◌, ◌∷◌, ℕ, List, length, drop, Some, IfErr, IfOk, IsErrOf};
ghost use Rattle.std.specs.Int.{w32, to_be_bytes};
ghost use Rattle.cs_base.specs.Outside.{HasCause};
ghost use Rattle.cs_base.specs.declared.limits.TheConstants.{MOST_DATAGRAM};
ghost use Rattle.cs_io.specs.declared.link.MemInput.{MemInput};
ghost use Rattle.cs_disk.specs.Disk.{Holds, Only};
ghost use Rattle.cs_disk.specs.Moments.{LeavesOnly};
ghost use Rattle.cs_journal.specs.Journal.{Survives};
ghost use Rattle.cs_journal.specs.Moments.{IsUntouched};

use crate::error::JournalError;
use crate::found::Found;
use crate::head::head_of;
use crate::journal::Journal;
use crate::through::{keep, measure, read, write_through};
use cs_base::MOST_DATAGRAM;
use cs_disk::Disk;
use cs_hash::Digest;
use std::alloc::Global;

/// How far a journal was read, and the length of its file.
#[derive(Drop)]
pub struct Recovery {
    pub at: u64,
    pub length: u64,
    ghost in_range: { at ≤ length },
}

impl Recovery {
    ghost use Rattle.cs_journal.specs.Keeping.{IsRead, IsKept, Begins, Finds, GateAt, HeaderAt, TickAt, DatagramAt, FoundFits, ShowsGate};

    /// Syncs the disk, and reads the head of its file, which is to be a journal of the node of this id.
    pub fn begin<D: Disk>(
        alloc: Global,
        disk: &mut D,
        id: &Digest,
    ) -> Result<Recovery, JournalError>
        ensures begins { (file : List ℕ) → D.content disk.old ≡ Some file → Begins id.now file result }
        ensures durable { (file : List ℕ) → D.content disk.old ≡ Some file → IfOk result (λ _.
            Only file (D.may_leave disk.new)) }
        ensures place { IfOk result (λ recovery. Holds (D.content disk.new) recovery.length) }
        ensures untouched { IsUntouched D.content D.may_leave D.moment D.left_since disk.old disk.new }
        ensures fault { HasCause (D.faults disk.old) (D.faults disk.new)
            (IsErrOf result JournalError.DiskFault) }
        ensures only { IsErrOf result JournalError.Full → ⊥ }
    {
        keep(disk)?;
        let length = measure(disk)?;
        if length < 37 {
            return Err(JournalError::BadJournal);
        }
        let mut front = [0u8; 36];
        read(disk, 0, &mut front)?;
        let head = head_of(alloc, id)?.into_bytes();
        if front.as_slice() != head.as_slice() {
            return Err(JournalError::BadJournal);
        }
        Ok(Recovery { at: 36, length })
    }

    /// Looks at the next gate. Where it is open, the input behind it is read, and the journal was
    /// read up to the gate behind that.
    pub fn next<D: Disk>(&mut self, disk: &mut D, buf: &mut [u8]) -> Result<Found, JournalError>
        requires room { length buf.old ≡ MOST_DATAGRAM + 1 }
        requires place { Holds (D.content disk.old) self.old.length }
        ensures found { (id : List ℕ) (inputs : List MemInput) (file : List ℕ)
            → D.content disk.old ≡ Some file → IsRead id inputs self.old file
            → Finds id inputs self.new file buf.new result }
        ensures fits { FoundFits self.old.at self.new result }
        ensures length { self.new.length ≡ self.old.length }
        ensures place { Holds (D.content disk.new) self.new.length }
        ensures untouched { IsUntouched D.content D.may_leave D.moment D.left_since disk.old disk.new }
        ensures fault { HasCause (D.faults disk.old) (D.faults disk.new)
            (IsErrOf result JournalError.DiskFault) }
        ensures only { IsErrOf result JournalError.Full → ⊥ }
    {
        let gate = self.gate(disk)?;
        if gate != 1 {
            return Ok(Found::Gate(gate));
        }
        let (kind, count) = self.header(disk)?;
        match kind {
            0 => self.tick(count),
            1 => self.datagram(disk, buf, count),
            _ => Err(JournalError::BadJournal),
        }
    }

    // Goes past the record of a tick, which has no bytes.
    fn tick(&mut self, count: u32) -> Result<Found, JournalError>
        requires { self.old.at + 6 ≤ self.old.length }
        ensures tick { TickAt self.old.at count self.new result }
        ensures fits { FoundFits self.old.at self.new result }
        ensures length { self.new.length ≡ self.old.length }
        ensures only { IsErrOf result JournalError.Full → ⊥ }
    {
        if count != 0 {
            return Err(JournalError::BadJournal);
        }
        self.at += 6;
        Ok(Found::Tick)
    }

    // Reads the bytes of a datagram, and goes past it.
    fn datagram<D: Disk>(
        &mut self,
        disk: &mut D,
        buf: &mut [u8],
        count: u32,
    ) -> Result<Found, JournalError>
        requires room { length buf.old ≡ MOST_DATAGRAM + 1 }
        requires place { Holds (D.content disk.old) self.old.length }
        requires header { self.old.at + 6 ≤ self.old.length }
        ensures datagram { (file : List ℕ) → D.content disk.old ≡ Some file
            → self.old.length ≡ length file → DatagramAt self.old.at count file self.new buf.new result }
        ensures fits { FoundFits self.old.at self.new result }
        ensures length { self.new.length ≡ self.old.length }
        ensures place { Holds (D.content disk.new) self.new.length }
        ensures untouched { IsUntouched D.content D.may_leave D.moment D.left_since disk.old disk.new }
        ensures fault { HasCause (D.faults disk.old) (D.faults disk.new)
            (IsErrOf result JournalError.DiskFault) }
        ensures only { IsErrOf result JournalError.Full → ⊥ }
    {
        let start = self.at + 6;
        if count as usize > MOST_DATAGRAM + 1 || u64::from(count) > self.length - start {
            return Err(JournalError::BadJournal);
        }
        let (bytes, _) = buf.split_at_mut(count as usize);
        read(disk, start, bytes)?;
        self.at = start + u64::from(count);
        Ok(Found::Datagram(count as usize))
    }

    // The byte of the gate.
    fn gate<D: Disk>(&self, disk: &mut D) -> Result<u8, JournalError>
        requires { Holds (D.content disk.old) self.now.length }
        ensures gate { (file : List ℕ) → D.content disk.old ≡ Some file
            → self.now.length ≡ length file → GateAt self.now.at file result }
        ensures within { IfOk result (λ _. self.now.at + 1 ≤ self.now.length) }
        ensures place { Holds (D.content disk.new) self.now.length }
        ensures untouched { IsUntouched D.content D.may_leave D.moment D.left_since disk.old disk.new }
        ensures fault { HasCause (D.faults disk.old) (D.faults disk.new)
            (IsErrOf result JournalError.DiskFault) }
        ensures only { IsErrOf result JournalError.Full → ⊥ }
    {
        if self.at == self.length {
            return Err(JournalError::BadJournal);
        }
        let mut byte = [0u8; 1];
        read(disk, self.at, &mut byte)?;
        Ok(byte[0])
    }

    // The kind and the length behind the gate.
    fn header<D: Disk>(&self, disk: &mut D) -> Result<(u8, u32), JournalError>
        requires { Holds (D.content disk.old) self.now.length }
        ensures header { (file : List ℕ) → D.content disk.old ≡ Some file
            → self.now.length ≡ length file → HeaderAt self.now.at file result }
        ensures within { IfOk result (λ _. self.now.at + 6 ≤ self.now.length) }
        ensures place { Holds (D.content disk.new) self.now.length }
        ensures untouched { IsUntouched D.content D.may_leave D.moment D.left_since disk.old disk.new }
        ensures fault { HasCause (D.faults disk.old) (D.faults disk.new)
            (IsErrOf result JournalError.DiskFault) }
        ensures only { IsErrOf result JournalError.Full → ⊥ }
    {
        if self.length - self.at < 6 {
            return Err(JournalError::BadJournal);
        }
        let mut front = [0u8; 5];
        read(disk, self.at + 1, &mut front)?;
        Ok(header_in(front.as_slice()))
    }

    /// Ends the reading at the gate that isn't open, and so goes on with the journal. A gate that
    /// is neither open nor 0 is closed for good.
    pub fn finish<D: Disk>(self, disk: &mut D, gate: u8) -> Result<Journal, JournalError>
        requires place { Holds (D.content disk.old) self.length }
        requires within { self.at + 1 ≤ self.length }
        ensures kept { (id : List ℕ) (inputs : List MemInput) (file : List ℕ)
            → D.content disk.old ≡ Some file → Only file (D.may_leave disk.old)
            → ShowsGate id inputs self gate file
            → IfOk result (λ journal. IsKept D.content D.may_leave id inputs journal disk.new) }

        // A crash at any moment leaves what it might have left before: the same inputs, or one more.
        ensures crash { (id : List ℕ) (inputs : List MemInput) (next : MemInput)
            (read : List MemInput) (file : List ℕ)
            → D.content disk.old ≡ Some file → Only file (D.may_leave disk.old)
            → ShowsGate id read self gate file → Survives id inputs next file
            → LeavesOnly D.moment D.left_since disk.old disk.new (Survives id inputs next) }

        ensures place { IfOk result (λ journal. Holds (D.content disk.new) (journal.end + 1)) }
        ensures fault { HasCause (D.faults disk.old) (D.faults disk.new)
            (IsErrOf result JournalError.DiskFault) }
        ensures only { IfErr result (λ error.
            (error ≡ JournalError.DiskFault) ⊎ (error ≡ JournalError.Memory)) }
    {
        if gate == 0 {
            return Ok(Journal { end: self.at });
        }
        write_through(disk, self.at, &[0])?;
        Ok(Journal { end: self.at })
    }
}

// A kind and a length in their five bytes.
fn header_in(front: &[u8]) -> (u8, u32)
    requires { length front.now ≡ 5 }
    ensures { front.now ≡ result.0 ∷ to_be_bytes w32 result.1 }
{
    let count = u32::from_be_bytes([front[1], front[2], front[3], front[4]]);
    (front[0], count)
}
