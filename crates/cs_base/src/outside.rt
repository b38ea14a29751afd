//! What bytes are read from and written to, by what is left, what was written, and how often it
//! failed.
ghost use Rattle.std.specs.Prelude.{◌≡◌, ◌<◌, List, ℕ, Option, length};
ghost use Rattle.cs_base.specs.Outside.{HasCause, Reads, Writes};

/// What a read gave.
#[derive(Clone, Copy, Debug, PartialEq, Eq)]
pub enum Got {
    /// The first bytes left, so many.
    Bytes(usize),
    /// None is left.
    End,
    /// Nothing was taken.
    Failed,
}

/// What a write did.
#[derive(Clone, Copy, Debug, PartialEq, Eq)]
pub enum Put {
    /// The first bytes were appended, so many.
    Took(usize),
    /// Nothing was appended.
    Failed,
    /// Nothing was appended, for want of memory.
    Memory,
}

/// What bytes are read from.
pub trait Source {
    /// The bytes that are left, where the source tells them.
    ghost left: { Self → Option (List ℕ) };

    /// How often the source has failed, up to 2^64 - 1.
    ghost faults: { Self → ℕ };

    /// Reads at least one of the bytes left into the front of the buffer, and takes it away.
    fn read(&mut self, buf: &mut [u8]) -> Got
        requires { 0 < length buf.old }
        ensures bytes { Reads (left self.old) (left self.new) buf.new result }
        ensures cause { HasCause (faults self.old) (faults self.new) (result ≡ Got.Failed) };
}

/// What bytes are written to.
pub trait Sink {
    /// The bytes that were written, where the sink tells them.
    ghost written: { Self → Option (List ℕ) };

    /// How often the sink has failed, up to 2^64 - 1.
    ghost faults: { Self → ℕ };

    /// Appends at least one byte of the front of the piece to what was written.
    fn write(&mut self, piece: &[u8]) -> Put
        requires { 0 < length piece.now }
        ensures bytes { Writes (written self.old) (written self.new) piece.now result }
        ensures cause { HasCause (faults self.old) (faults self.new) (result ≡ Put.Failed) };
}
