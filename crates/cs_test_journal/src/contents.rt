//! The bytes of journals.
use crate::reopening::{ID, SUBMIT, bytes_of, digest_of, keep, reopen};
use cs_base::{NodeId, Sequence};
use cs_disk::MemDisk;
use cs_journal::{Journal, JournalError, journal_id};
use std::alloc::Global;
use std::test::Fail;

const SITE: &[u8] =
    b"shards = 1\nfaulty = 0\ndummies = 0\nbase_port = 2000\ncontracts = []\ngenesis = [\"3c469e9d6c5875d37a43f353d4f88e61fcf812c66eee3457465a40b0da4153e004636f696e01000000000000000005\"]\n";

#[test]
fn a_journal_has_the_id_of_its_node(rt: HostRuntime) -> Result<(), Fail> {
    let alloc = rt.alloc();
    let node = NodeId { shard: 0, index: 0 };
    let mut texts = Vec::new(alloc);
    let plain = journal_id(alloc, SITE, texts.as_slice(), node)?;
    assert_eq!(rt; plain, digest_of(alloc, ID)?);
    let other = journal_id(alloc, SITE, texts.as_slice(), NodeId { shard: 1, index: 2 })?;
    let expected = b"499729416a94e46a755a6c965cec6144c147bc48ef1ddcac922bda4a05a25152";
    assert_eq!(rt; other, digest_of(alloc, expected.as_slice())?);
    texts.push(Sequence::from_vec(Vec::from_slice(alloc, b"first text".as_slice())?))?;
    texts.push(Sequence::new(alloc))?;
    let with_texts = journal_id(alloc, SITE, texts.as_slice(), node)?;
    let expected = b"c060435dd7a57bd1b115308bffa5a2c6ad592e122045426945220bf4bd7a2665";
    assert_eq!(rt; with_texts, digest_of(alloc, expected.as_slice())?);
    Ok(())
}

#[test]
fn a_submit_and_a_tick_are_kept(rt: HostRuntime) -> Result<(), Fail> {
    let alloc = rt.alloc();
    let id = digest_of(alloc, ID)?;
    let submit = bytes_of(alloc, SUBMIT)?;
    let mut disk = MemDisk::new(alloc, b"".as_slice(), Vec::new(alloc))?;
    let journal = Journal::make(alloc, &mut disk, &id)?;
    let mut expected = bytes_of(alloc, b"43534a31".as_slice())?;
    expected.extend_from_slice(id.as_slice())?;
    expected.push(0)?;
    assert_eq!(rt; disk.content(), expected.as_slice());
    let journal = keep(alloc, journal, &mut disk, Some(submit.as_slice()))?;
    expected.pop();
    expected.extend_from_slice(&[1, 1, 0, 0, 1, 23])?;
    expected.extend_from_slice(submit.as_slice())?;
    expected.push(0)?;
    assert_eq!(rt; disk.content(), expected.as_slice());
    assert_eq!(rt; journal.end, 321);
    let journal = keep(alloc, journal, &mut disk, None)?;
    expected.pop();
    expected.extend_from_slice(&[1, 0, 0, 0, 0, 0, 0])?;
    assert_eq!(rt; disk.content(), expected.as_slice());
    assert_eq!(rt; journal.end, 327);
    let (kept, journal) = reopen(alloc, &mut disk, &id)?;
    assert_eq!(rt; (kept, journal.end), (2, 327));
    Ok(())
}

// What is found of a content behind the head of an id, and the content then.
fn opened(
    alloc: Global,
    rest: &[u8],
) -> Result<(Result<(usize, u64), JournalError>, Vec<u8>), Fail> {
    let head = b"000102030405060708090a0b0c0d0e0f101112131415161718191a1b1c1d1e1f";
    let id = digest_of(alloc, head.as_slice())?;
    let mut content = bytes_of(alloc, b"43534a31".as_slice())?;
    content.extend_from_slice(id.as_slice())?;
    content.extend_from_slice(rest)?;
    let mut disk = MemDisk::new(alloc, content.as_slice(), Vec::new(alloc))?;
    let found = match reopen(alloc, &mut disk, &id) {
        Ok((kept, journal)) => Ok((kept, journal.end)),
        Err(error) => Err(error),
    };
    let now = Vec::from_slice(alloc, disk.content().get(36..).unwrap_or(b""))?;
    Ok((found, now))
}

// A content of which so many inputs are kept, up to that place.
fn is_kept(alloc: Global, rest: &[u8], kept: usize, end: u64, then: &[u8]) -> Result<bool, Fail> {
    let (found, now) = opened(alloc, rest)?;
    Ok(found == Ok((kept, end)) && now.as_slice() == then)
}

fn is_none(alloc: Global, rest: &[u8]) -> Result<bool, Fail> {
    let (found, now) = opened(alloc, rest)?;
    Ok(found == Err(JournalError::BadJournal) && now.as_slice() == rest)
}

#[test]
fn a_gate_that_is_not_open_ends_a_journal(rt: HostRuntime) -> Result<(), Fail> {
    let alloc = rt.alloc();
    assert!(rt; is_kept(alloc, &[0], 0, 36, &[0])?);
    let tick = [1, 0, 0, 0, 0, 0, 0];
    assert!(rt; is_kept(alloc, &tick, 1, 42, &tick)?);
    let empty = [1, 1, 0, 0, 0, 0, 0];
    assert!(rt; is_kept(alloc, &empty, 1, 42, &empty)?);
    assert!(rt; is_kept(alloc, &[255, 1, 2, 3], 0, 36, &[0, 1, 2, 3])?);
    let torn = [1, 0, 0, 0, 0, 0, 2];
    assert!(rt; is_kept(alloc, &torn, 1, 42, &tick)?);
    let behind = [0, 0, 0, 0, 0, 0, 1];
    assert!(rt; is_kept(alloc, &behind, 0, 36, &behind)?);
    Ok(())
}

#[test]
fn an_open_gate_without_a_whole_record_is_no_journal(rt: HostRuntime) -> Result<(), Fail> {
    let alloc = rt.alloc();
    assert!(rt; is_none(alloc, &[])?);
    assert!(rt; is_none(alloc, &[1])?);
    assert!(rt; is_none(alloc, &[1, 0, 0, 0, 0, 0])?);
    assert!(rt; is_none(alloc, &[1, 0, 0, 0, 0, 1, 0, 0])?);
    assert!(rt; is_none(alloc, &[1, 2, 0, 0, 0, 0, 0])?);
    Ok(())
}

// A datagram of 32,769 bytes is kept, and one of 32,770 isn't.
#[test]
fn a_record_has_a_limit(rt: HostRuntime) -> Result<(), Fail> {
    let alloc = rt.alloc();
    let mut longest = Vec::from_slice(alloc, [1, 1, 0, 0, 128, 1].as_slice())?;
    longest.extend_from_slice(vec![in alloc; 0u8; 32_770]?.as_slice())?;
    assert!(rt; is_kept(alloc, longest.as_slice(), 1, 32_811, longest.as_slice())?);
    let mut longer = Vec::from_slice(alloc, [1, 1, 0, 0, 128, 2].as_slice())?;
    longer.extend_from_slice(vec![in alloc; 0u8; 32_771]?.as_slice())?;
    assert!(rt; is_none(alloc, longer.as_slice())?);
    Ok(())
}

#[test]
fn another_head_is_no_journal(rt: HostRuntime) -> Result<(), Fail> {
    let alloc = rt.alloc();
    let id = digest_of(alloc, ID)?;
    let mut disk = MemDisk::new(alloc, b"".as_slice(), Vec::new(alloc))?;
    let _journal = Journal::make(alloc, &mut disk, &id)?;
    assert!(rt;
        matches!(
            reopen(alloc, &mut disk, &[0; 32]),
            Err(JournalError::BadJournal)
        )
    );
    let mut other = Vec::from_slice(alloc, b"CSJ2".as_slice())?;
    other.extend_from_slice(disk.content().get(4..).unwrap_or(b""))?;
    let mut disk = MemDisk::new(alloc, other.as_slice(), Vec::new(alloc))?;
    assert!(rt; matches!(reopen(alloc, &mut disk, &id), Err(JournalError::BadJournal)));
    Ok(())
}
