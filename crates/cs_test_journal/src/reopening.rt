//! Opening a journal, as the tests do.
ghost use Rattle.std.specs.Prelude.{◌≡◌, ◌+◌, IfOk};
ghost use Rattle.cs_disk.specs.Disk.{Holds};
ghost use Rattle.cs_disk.specs.InMemory.{disk_content};

use cs_base::{MOST_DATAGRAM, Memory, read_bytes};
use cs_disk::MemDisk;
use cs_hash::Digest;
use cs_journal::{Found, Given, Journal, JournalError, Recovery};
use std::alloc::Global;

/// The most inputs that a test keeps.
const MOST_INPUTS: usize = 8;

/// A Submit that a client sealed.
pub const SUBMIT: &[u8] =
    b"4353503101ffff000000000000000000e6013c469e9d6c5875d37a43f353d4f88e61fcf812c66eee3457465a40b0da4153e0087472616e736665720148d0f4bc08ed70656da9cbd219fc9f52ae0b490981bfea400afd6fc1f852e5a63c469e9d6c5875d37a43f353d4f88e61fcf812c66eee3457465a40b0da4153e004636f696e010000000000000000050000023c469e9d6c5875d37a43f353d4f88e61fcf812c66eee3457465a40b0da4153e004636f696e010000000000000000023c469e9d6c5875d37a43f353d4f88e61fcf812c66eee3457465a40b0da4153e004636f696e01000000000000000003000000000000000000010023b0ccf6d47f97743eb3ff93579ea25f1aeed15ef23456aa5bdb12981b6dc058";

/// The id of the node that it is for.
pub const ID: &[u8] = b"8c705e2c73e76dd30bddf95b0fb511e723e4bbbf1c3ac3373c8ea667db59d3ca";

/// The bytes of a text of digits.
pub fn bytes_of(alloc: Global, text: &[u8]) -> Result<Vec<u8>, Memory> {
    match read_bytes(alloc, text)? {
        Some(bytes) => Ok(bytes.into_vec()),
        None => Ok(Vec::new(alloc)),
    }
}

/// The digest of a text of 64 digits.
pub fn digest_of(alloc: Global, text: &[u8]) -> Result<Digest, Memory> {
    let bytes = bytes_of(alloc, text)?;
    let mut digest = [0u8; 32];
    for (place, byte) in digest.iter_mut().zip(bytes.as_slice()) {
        *place = *byte;
    }
    Ok(digest)
}

/// Opens a journal: how many inputs it keeps, and the journal that goes on.
pub fn reopen(
    alloc: Global,
    disk: &mut MemDisk,
    id: &Digest,
) -> Result<(usize, Journal), JournalError>
    ensures { IfOk result (λ opened. Holds (disk_content disk.new) (opened.1.end + 1)) }
{
    let Ok(mut room) = vec![in alloc; 0u8; MOST_DATAGRAM + 1] else {
        return Err(JournalError::Memory);
    };
    let buf = room.as_mut_slice();
    let mut recovery = Recovery::begin(alloc, disk, id)?;
    for kept in 0..MOST_INPUTS {
        if let Found::Gate(gate) = recovery.next(disk, buf)? {
            let journal = recovery.finish(disk, gate)?;
            return Ok((kept, journal));
        }
    }
    Err(JournalError::Full)
}

/// Keeps the datagram, or a tick where there is none. One that is too long isn't kept.
pub fn keep(
    alloc: Global,
    journal: Journal,
    disk: &mut MemDisk,
    datagram: Option<&[u8]>,
) -> Result<Journal, JournalError>
    requires { Holds (disk_content disk.old) (journal.end + 1) }
    ensures { IfOk result (λ journal. Holds (disk_content disk.new) (journal.end + 1)) }
{
    match datagram {
        None => journal.append(alloc, disk, Given::Tick),
        Some(bytes) if bytes.len() <= MOST_DATAGRAM + 1 => {
            journal.append(alloc, disk, Given::Datagram(bytes))
        }
        Some(_) => Err(JournalError::Full),
    }
}
