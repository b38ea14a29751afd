//! A crash after each call.
ghost use Rattle.std.specs.Prelude.{◌≤◌};
ghost use Rattle.cs_disk.specs.InMemory.{disk_moment};

use crate::reopening::{ID, SUBMIT, bytes_of, digest_of, keep, reopen};
use cs_disk::{MemDisk, Rest};
use cs_hash::Digest;
use cs_journal::{Journal, JournalError};
use std::alloc::Global;
use std::test::Fail;

/// What is found after a crash: how many writes and syncs were made, and how many inputs are kept
/// where the rest is filled with 00, 01 and ff, and as it was written.
const FOUND: [(usize, [usize; 4]); 9] = [
    (2, [0, 0, 0, 0]),
    (3, [0, 0, 0, 0]),
    (4, [0, 0, 0, 0]),
    (5, [0, 1, 0, 1]),
    (6, [1, 1, 1, 1]),
    (7, [1, 1, 1, 1]),
    (8, [1, 1, 1, 1]),
    (9, [1, 2, 1, 2]),
    (10, [2, 2, 2, 2]),
];

const RESTS: [Rest; 4] = [
    Rest::Filled(0),
    Rest::Filled(1),
    Rest::Filled(255),
    Rest::Written,
];

// Makes a journal, and keeps a Submit and a tick in it.
fn keep_both(
    alloc: Global,
    disk: &mut MemDisk,
    id: &Digest,
    submit: &[u8],
) -> Result<(), JournalError> {
    let journal = Journal::make(alloc, disk, id)?;
    let journal = keep(alloc, journal, disk, Some(submit))?;
    let _journal = keep(alloc, journal, disk, None)?;
    Ok(())
}

fn run(alloc: Global, id: &Digest, submit: &[u8]) -> Result<MemDisk, JournalError> {
    let mut disk = MemDisk::new(alloc, b"".as_slice(), Vec::new(alloc))?;
    keep_both(alloc, &mut disk, id, submit)?;
    Ok(disk)
}

// How many inputs are kept after that crash, and how many more after one was kept and the journal
// opened again.
fn found(
    alloc: Global,
    disk: &MemDisk,
    id: &Digest,
    moment: usize,
    rest: Rest,
) -> Result<(usize, usize), JournalError>
    requires { moment ≤ disk_moment disk.now }
{
    let submit = bytes_of(alloc, SUBMIT)?;
    let mut left = disk.crashed(moment, rest)?;
    let (first, journal) = reopen(alloc, &mut left, id)?;
    let _journal = keep(alloc, journal, &mut left, Some(submit.as_slice()))?;
    let (then, _journal) = reopen(alloc, &mut left, id)?;
    Ok((first, then.saturating_sub(first)))
}

#[test]
fn each_crash_leaves_what_was_kept(rt: HostRuntime) -> Result<(), Fail> {
    let alloc = rt.alloc();
    let id = digest_of(alloc, ID)?;
    let submit = bytes_of(alloc, SUBMIT)?;
    let disk = run(alloc, &id, submit.as_slice())?;
    assert_eq!(rt; disk.moment(), 10);
    for (moment, kept) in FOUND {
        assert!(rt; moment <= disk.moment());
        for (rest, count) in RESTS.into_iter().zip(kept) {
            assert_eq!(rt;
                found(alloc, &disk, &id, moment, rest)?,
                (count, 1),
                "{moment} {rest:?}"
            );
        }
    }
    Ok(())
}

// A write of which nothing reached the disk leaves what a filling with 00 leaves.
#[test]
fn what_was_never_written_is_not_kept(rt: HostRuntime) -> Result<(), Fail> {
    let alloc = rt.alloc();
    let id = digest_of(alloc, ID)?;
    let submit = bytes_of(alloc, SUBMIT)?;
    let disk = run(alloc, &id, submit.as_slice())?;
    for (moment, kept) in FOUND {
        assert!(rt; moment <= disk.moment());
        let (count, more) = found(alloc, &disk, &id, moment, Rest::Unwritten)?;
        assert_eq!(rt; count, kept[0]);
        assert_eq!(rt; more, 1);
    }
    Ok(())
}

/// How many inputs are kept where this call fails, of those behind the making.
const AFTER_A_FAULT: [(u32, usize); 8] = [
    (2, 0),
    (3, 0),
    (4, 0),
    (5, 1),
    (6, 1),
    (7, 1),
    (8, 1),
    (9, 2),
];

// Where a call fails the append is refused, and what was kept before is found.
#[test]
fn a_fault_is_told_and_loses_nothing(rt: HostRuntime) -> Result<(), Fail> {
    let alloc = rt.alloc();
    let id = digest_of(alloc, ID)?;
    let submit = bytes_of(alloc, SUBMIT)?;
    for (call, kept) in AFTER_A_FAULT {
        let mut disk = MemDisk::new(alloc, b"".as_slice(), vec![in alloc; call; 1]?)?;
        let kept_both = keep_both(alloc, &mut disk, &id, submit.as_slice());
        assert_eq!(rt; kept_both, Err(JournalError::DiskFault));
        let mut left = MemDisk::new(alloc, disk.content(), Vec::new(alloc))?;
        let (found, _journal) = reopen(alloc, &mut left, &id)?;
        assert_eq!(rt; found, kept);
    }
    Ok(())
}
