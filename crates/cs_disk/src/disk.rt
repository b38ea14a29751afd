//! What a file is read from and written to by place, by what a crash may leave of it, and by how
//! often it failed.
ghost use Rattle.std.specs.Prelude.{◌≡◌, ◌+◌, ◌≤◌, ℕ, List, length, Option, Some};
ghost use Rattle.cs_base.specs.Outside.{HasCause};
ghost use Rattle.cs_io.specs.Told.{Stays};
ghost use Rattle.cs_disk.specs.Disk.{Attaches, Measures, Holds, DiskReads, DiskWrites, SyncedOnly, Torn, Follows, Elapses};

/// What came of attaching a file.
#[derive(Clone, Copy, Debug, PartialEq, Eq)]
pub enum Attached {
    /// The disk has that file from now on.
    Done,
    /// The disk failed, and has no file.
    Failed,
    /// There was not enough memory, and the disk has no file.
    Memory,
}

/// What came of asking for the length of the file.
#[derive(Clone, Copy, Debug, PartialEq, Eq)]
pub enum Length {
    /// It has so many bytes.
    Is(u64),
    /// The disk failed.
    Failed,
}

/// What came of reading.
#[derive(Clone, Copy, Debug, PartialEq, Eq)]
pub enum DiskRead {
    /// The buffer has the bytes at the place.
    Done,
    /// The disk failed, and the buffer may have any bytes.
    Failed,
}

/// What came of writing.
#[derive(Clone, Copy, Debug, PartialEq, Eq)]
pub enum Wrote {
    /// The bytes stand at the place.
    Done,
    /// The disk failed, and where the bytes were to stand may be any.
    Failed,
    /// Nothing was written, for want of memory.
    Memory,
}

/// What came of a sync.
#[derive(Clone, Copy, Debug, PartialEq, Eq)]
pub enum Synced {
    /// A crash leaves the content.
    Done,
    /// The disk failed, and nothing is known to be kept.
    Failed,
}

/// A disk with one file, to which nobody else writes. Between two syncs a crash may leave any bytes
/// in each range that was written, and past the old end; a sync keeps what is there.
pub trait Disk {
    /// The name of the file, where the disk tells it; none where no file is attached.
    ghost attached: { Self → Option (Option (List ℕ)) };

    /// The content of the file, where the disk tells it.
    ghost content: { Self → Option (List ℕ) };

    /// The contents that a crash at this moment may leave.
    ghost may_leave: { Self → List ℕ → Type 0 };

    /// The moment, as a number that doesn't fall.
    ghost moment: { Self → ℕ };

    /// The contents that a crash at some moment from that one on may have left, during a call or
    /// between two.
    ghost left_since: { Self → ℕ → List ℕ → Type 0 };

    /// How often the disk has failed, up to 2^64 - 1.
    ghost faults: { Self → ℕ };

    /// Attaches the file of this name, which is made where there is none.
    fn attach(&mut self, name: &str) -> Attached
        ensures name { Attaches (attached self.old) (attached self.new) name.now result }
        ensures content { content self.new ≡ content self.old }
        ensures crash { (c : List ℕ) → may_leave self.new c → may_leave self.old c }
        ensures time { Elapses (moment self.old) (moment self.new)
            (left_since self.old) (left_since self.new) (may_leave self.new) }
        ensures cause { HasCause (faults self.old) (faults self.new) (result ≡ Attached.Failed) };

    /// The length of the file.
    fn length(&mut self) -> Length
        ensures length { Measures (content self.old) result }
        ensures content { content self.new ≡ content self.old }
        ensures crash { (c : List ℕ) → may_leave self.new c → may_leave self.old c }
        ensures time { Elapses (moment self.old) (moment self.new)
            (left_since self.old) (left_since self.new) (may_leave self.new) }
        ensures name { Stays (attached self.old) (attached self.new) }
        ensures cause { HasCause (faults self.old) (faults self.new) (result ≡ Length.Failed) };

    /// Reads so many bytes as the buffer has, from this place on.
    fn read_at(&mut self, at: u64, buf: &mut [u8]) -> DiskRead
        requires { Holds (content self.old) (at + length buf.old) }
        ensures bytes { DiskReads (content self.old) at buf.new result }
        ensures content { content self.new ≡ content self.old }
        ensures crash { (c : List ℕ) → may_leave self.new c → may_leave self.old c }
        ensures time { Elapses (moment self.old) (moment self.new)
            (left_since self.old) (left_since self.new) (may_leave self.new) }
        ensures name { Stays (attached self.old) (attached self.new) }
        ensures cause { HasCause (faults self.old) (faults self.new) (result ≡ DiskRead.Failed) };

    /// Writes over what is there, and past the end.
    fn write_at(&mut self, at: u64, bytes: &[u8]) -> Wrote
        requires { Holds (content self.old) at }
        ensures content { DiskWrites (content self.old) (content self.new) at bytes.now result }
        ensures crash { Follows (Torn at (length bytes.now)) (may_leave self.old) (may_leave self.new) }
        ensures time { Elapses (moment self.old) (moment self.new)
            (left_since self.old) (left_since self.new) (may_leave self.new) }
        ensures name { Stays (attached self.old) (attached self.new) }
        ensures cause { HasCause (faults self.old) (faults self.new) (result ≡ Wrote.Failed) };

    /// Keeps what was written: after it, a crash leaves the content.
    fn sync(&mut self) -> Synced
        ensures durable { SyncedOnly (content self.old) (may_leave self.new) result }
        ensures content { content self.new ≡ content self.old }
        ensures crash { (c : List ℕ) → may_leave self.new c → may_leave self.old c }
        ensures time { Elapses (moment self.old) (moment self.new)
            (left_since self.old) (left_since self.new) (may_leave self.new) }
        ensures name { Stays (attached self.old) (attached self.new) }
        ensures cause { HasCause (faults self.old) (faults self.new) (result ≡ Synced.Failed) };

    /// This moment is one of those since an earlier one.
    ghost counts_now: { (disk : Self) (t : ℕ) (c : List ℕ) → t ≤ moment disk → may_leave disk c
        → left_since disk t c };

    /// Since this moment there is no other.
    ghost only_now: { (disk : Self) (c : List ℕ) → left_since disk (moment disk) c
        → may_leave disk c };

    /// The content is one that a crash may leave.
    ghost stays_there: { (disk : Self) (c : List ℕ) → content disk ≡ Some c → may_leave disk c };
}
