//! The sessions that read an object, behind a count in one byte.
ghost use Rattle.std.specs.Prelude.{◌≡◌, ◌++◌, ◌↔◌, bytes_eq, length, IsTrue, OnOk, OnErr};
ghost use Rattle.std.specs.List.{list_any};
ghost use Rattle.cs_base.specs.Fields.{bytes_at, many_at};
ghost use Rattle.cs_tx_value.specs.Reading.{ReadsValue, Passes, Begins, LeavesRoom};
ghost use Rattle.cs_tx_types.specs.State.{readers_differ, readers_encoding, ReadersFit};
ghost use Rattle.cs_tx_types.specs.Reading.{readers_at, FillsReaders};

use cs_base::{Cursor, MOST_READERS, Memory, Sequence, Writer};
use cs_tx_value::{Digest, Encoded, FormError, few_fit, read_some, room_counted, write_counted};
use std::alloc::Global;

fn is_among(digest: &Digest, others: &[Digest]) -> bool
    ensures { result ≡ list_any (λ other. bytes_eq digest.now other) others.now }
{
    others.iter().any(|other| *digest == *other)
}

// Whether no reader stands twice.
fn differ(readers: &[Digest]) -> bool
    ensures { result ≡ readers_differ readers.now }
{
    for place in 0..readers.len() {
        if is_among(&readers[place], &readers[place + 1..]) {
            return false;
        }
    }
    true
}

/// One to `MOST_READERS` readers, of which none stands twice.
#[tactic(auto, unfolding(cs_base::specs::Fields::tested_at))]
pub fn read_readers(alloc: Global, cursor: &mut Cursor<'_>) -> Result<Sequence<Digest>, FormError>
    ensures { ReadsValue result cursor.new (readers_at cursor.old) }
{
    let readers = read_some::<Digest>(alloc, cursor, MOST_READERS)?;
    if !differ(readers.as_slice()) {
        return Err(FormError::BadForm);
    }
    Ok(readers)
}

// As many digests as there are places for.
#[tactic(auto, using(crate::proofs::Filling::filled_more, crate::proofs::Filling::filled_not, crate::proofs::Filling::filled_all))]
fn fill(cursor: &mut Cursor<'_>, places: &mut [Digest]) -> Result<(), FormError>
    ensures { FillsReaders result places.new cursor.new
        (many_at (bytes_at 32) (length places.old) cursor.old) }
{
    for place in 0..places.len() {
        let mut digest = [0; 32];
        digest.copy_from_slice(cursor.take(32)?);
        places[place] = digest;
    }
    Ok(())
}

/// Passes over one to `MOST_READERS` readers, of which none stands twice. They are compared where
/// they need no memory.
#[tactic(auto, unfolding(cs_base::specs::Fields::tested_at, cs_base::specs::Fields::some_at))]
pub fn skip_readers(cursor: &mut Cursor<'_>) -> Result<(), FormError>
    ensures { Passes result cursor.new (readers_at cursor.old) }
{
    let count = cursor.u8()?;
    if count < 1 {
        return Err(FormError::BadForm);
    }
    if count > MOST_READERS {
        return Err(FormError::BadForm);
    }
    let mut places = [[0; 32]; 64];
    let readers = &mut places[..count as usize];
    fill(cursor, readers)?;
    if !differ(readers) {
        return Err(FormError::BadForm);
    }
    Ok(())
}

/// Appends the readers.
pub fn write_readers(readers: &Sequence<Digest>, out: &mut Writer) -> Result<(), Memory>
    requires { ReadersFit readers.now }
    ensures ok { OnOk result (out.new ≡ out.old ++ readers_encoding readers.now) }
    ensures err { OnErr result (Begins out.new out.old) }
{
    write_counted(readers, out)
}

/// Whether there are 1 to `MOST_READERS` readers, of which none stands twice.
pub fn readers_fit(readers: &Sequence<Digest>) -> bool
    ensures { IsTrue result ↔ ReadersFit readers.now }
{
    if readers.is_empty() || !few_fit(readers, MOST_READERS) {
        return false;
    }
    differ(readers.as_slice())
}

/// What is left of so much room behind the readers.
pub fn room_readers(readers: &Sequence<Digest>, room: usize) -> Option<usize>
    ensures { LeavesRoom (readers_encoding readers.now) room result }
{
    room_counted(readers, room)
}
