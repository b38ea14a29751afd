//! A source in memory.
ghost use Rattle.std.specs.Prelude.{◌≡◌, ◌<◌, ◌≤◌, min, length, take, vec_len, Some};
ghost use Rattle.cs_base.specs.Outside.{HasCause, Reads};

use crate::failures::Failures;
use crate::outside::{Got, Source};

/// A source of the bytes that it was made of. The listed calls fail, and no others.
#[derive(Drop)]
pub struct MemSource {
    bytes: Vec<u8>,
    taken: usize,
    failures: Failures,
    ghost in_range: { taken ≤ vec_len bytes },
}

impl MemSource {
    ghost use Rattle.cs_base.specs.Failures.{uncalled};
    ghost use Rattle.cs_base.specs.InMemory.{source_failures};

    /// A source of these bytes, whose calls of these numbers, counted from 0, fail.
    pub fn new(bytes: Vec<u8>, fails: Vec<u32>) -> Self
        ensures left { ⟦<MemSource as Source>⟧.left result ≡ Some bytes.items }
        ensures faults { ⟦<MemSource as Source>⟧.faults result ≡ 0 }
        ensures failures { source_failures result ≡ uncalled fails.items }
    {
        MemSource {
            bytes,
            taken: 0,
            failures: Failures::new(fails),
        }
    }
}

// Copies as many of the bytes as there is room for to the front of a buffer.
fn fill(buf: &mut [u8], bytes: &[u8]) -> usize
    ensures count { result ≡ min (length bytes.now) (length buf.old) }
    ensures filled { take result buf.new ≡ take result bytes.now }
{
    let count = bytes.len().min(buf.len());
    let (front, _) = bytes.split_at(count);
    let (room, _) = buf.split_at_mut(count);
    room.copy_from_slice(front);
    count
}

impl Source for MemSource {
    ghost use Rattle.cs_base.specs.Failures.{CountsCall};
    ghost use Rattle.cs_base.specs.InMemory.{source_left, source_faults, source_failures};

    ghost left = { source_left };

    ghost faults = { source_faults };

    fn read(&mut self, buf: &mut [u8]) -> Got
        requires { 0 < length buf.old }
        ensures bytes { Reads (source_left self.old) (source_left self.new) buf.new result }
        ensures cause { HasCause (source_faults self.old) (source_faults self.new)
            (result ≡ Got.Failed) }

        // Exactly the listed calls fail.
        ensures counted { CountsCall (source_failures self.old) (source_failures self.new)
            (result ≡ Got.Failed) }
    {
        if self.failures.is_due() {
            return Got::Failed;
        }
        let (_, left) = self.bytes.split_at(self.taken);
        let count = fill(buf, left);
        if count == 0 {
            return Got::End;
        }
        self.taken += count;
        Got::Bytes(count)
    }
}
