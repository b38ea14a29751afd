//! Writing fields one after the other.
ghost use Rattle.std.specs.Prelude.{◌≡◌, ◌++◌, ◌∷◌, [], IfOk, OnOk, OnErr};
ghost use Rattle.std.specs.Int.{w16, w32, w64, to_be_bytes};

use crate::memory::Memory;
use std::alloc::Global;
use std::marker::Model;

/// The bytes written so far. A call that wants memory leaves them as they were.
#[derive(Drop)]
pub struct Writer {
    bytes: Vec<u8>,
}

impl Model for Writer {
    ghost use Rattle.std.specs.Prelude.{List, ℕ};

    ghost Value = { List ℕ };

    ghost view = { λ w. w.bytes.items };
}

impl Writer {
    /// A writer with nothing written.
    pub fn new(alloc: Global) -> Writer
        ensures { result ≡ [] }
    {
        Writer {
            bytes: Vec::new(alloc),
        }
    }

    /// A writer with nothing written, which takes the room for so many bytes at once.
    pub fn with_room(alloc: Global, room: usize) -> Result<Writer, Memory>
        ensures { IfOk result (λ writer. writer ≡ []) }
    {
        let bytes = Vec::with_capacity(alloc, room)?;
        Ok(Writer { bytes })
    }

    /// Appends a byte.
    pub fn u8(&mut self, value: u8) -> Result<(), Memory>
        ensures ok { OnOk result (self.new ≡ self.old ++ value ∷ []) }
        ensures err { OnErr result (self.new ≡ self.old) }
    {
        self.bytes.push(value)?;
        Ok(())
    }

    /// Appends two bytes, the highest first.
    pub fn u16(&mut self, value: u16) -> Result<(), Memory>
        ensures ok { OnOk result (self.new ≡ self.old ++ to_be_bytes w16 value) }
        ensures err { OnErr result (self.new ≡ self.old) }
    {
        self.take(&u16::to_be_bytes(value))
    }

    /// Appends four bytes, the highest first.
    pub fn u32(&mut self, value: u32) -> Result<(), Memory>
        ensures ok { OnOk result (self.new ≡ self.old ++ to_be_bytes w32 value) }
        ensures err { OnErr result (self.new ≡ self.old) }
    {
        self.take(&u32::to_be_bytes(value))
    }

    /// Appends eight bytes, the highest first.
    pub fn u64(&mut self, value: u64) -> Result<(), Memory>
        ensures ok { OnOk result (self.new ≡ self.old ++ to_be_bytes w64 value) }
        ensures err { OnErr result (self.new ≡ self.old) }
    {
        self.take(&u64::to_be_bytes(value))
    }

    /// Appends these bytes.
    pub fn take(&mut self, bytes: &[u8]) -> Result<(), Memory>
        ensures ok { OnOk result (self.new ≡ self.old ++ bytes.now) }
        ensures err { OnErr result (self.new ≡ self.old) }
    {
        self.bytes.extend_from_slice(bytes)?;
        Ok(())
    }

    /// All that was written.
    pub fn into_bytes(self) -> Vec<u8>
        ensures { result.items ≡ self }
    {
        self.bytes
    }
}
