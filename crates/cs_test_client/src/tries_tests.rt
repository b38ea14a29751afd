//! A call that is made again, a session that was made before, and the details of both, over a link in
//! memory.
ghost use Rattle.cs_tx_types.specs.Session.{SessionFits};

use crate::cases::{Case, Word, make_case, resume, sealed, start};
use cs_base::{MemSink, NodeId, Sequence, print_bytes};
use cs_client::{ClientCore, Known, known_line};
use cs_details::{session_line, tx_lines};
use cs_io::{MemInput, MemLink, Until};
use cs_serve::{Ending, attend};
use cs_test_samples::spend;
use cs_tries::{TryEnding, attend_tries};
use cs_tx::{Session, session_digest};
use cs_tx_value::{Digest, Encoded};
use std::alloc::Global;
use std::process::Abort;
use std::test::Fail;

const NODE: NodeId = NodeId { shard: 0, index: 0 };

// The case of the same call under the next number.
fn next_case(rt: &impl Abort, alloc: Global, case: &Case) -> Result<Case, Fail> {
    let session = spend(alloc, case.name, 5, &[2, 3], 2)?;
    assert!(rt; session.fits());
    let digest = session_digest(alloc, &session)?;
    Ok(Case {
        config: case.config,
        name: case.name,
        digest,
    })
}

// A link by which the node of the shard says these, each of its case, behind a tick.
fn link_of(rt: &impl Abort, alloc: Global, said: &[(&Case, Word)]) -> Result<MemLink, Fail> {
    let mut inputs = Vec::new(alloc);
    inputs.push(MemInput::Tick)?;
    for (case, word) in said {
        let bytes = sealed(rt, alloc, case, NODE, *word)?;
        inputs.push(MemInput::Datagram(Sequence::from_vec(bytes)))?;
    }
    Ok(MemLink::new(alloc, inputs, Vec::new(alloc)))
}

// How a client ends that makes its call so often, of which this is printed, and how many datagrams
// were offered.
fn attended(
    rt: &impl Abort,
    alloc: Global,
    client: ClientCore,
    said: &[(&Case, Word)],
    details: bool,
    tries: u64,
    printed: &str,
) -> Result<(TryEnding, usize), Fail> {
    let mut link = link_of(rt, alloc, said)?;
    let mut out = MemSink::new(alloc, Vec::new(alloc));
    let until = Until::Turns(9);
    let ending = attend_tries(alloc, client, details, tries, &mut link, &mut out, until);
    assert_eq!(rt; out.bytes(), printed.as_bytes());
    Ok((ending, link.offered().len()))
}

// The same of a call that is tried so often.
fn tried(
    rt: &impl Abort,
    alloc: Global,
    said: &[(&Case, Word)],
    tries: u64,
    printed: &str,
) -> Result<(TryEnding, usize), Fail> {
    let one = make_case(rt, alloc, (1, 0), &[2, 3], &[])?;
    let client = start(rt, alloc, &one, &[2, 3], &[])?;
    attended(rt, alloc, client, said, false, tries, printed)
}

fn is_ended(ending: &TryEnding, expected: Ending) -> bool {
    match ending {
        TryEnding::Ended(ended) => *ended == expected,
        _ => false,
    }
}

fn is_told(ending: &TryEnding, expected: &Digest) -> bool {
    match ending {
        TryEnding::Told(digest) => *digest == *expected,
        _ => false,
    }
}

// What is printed of a session that is accepted.
fn accepted_lines(alloc: Global, case: &Case, session: &Session) -> Result<String, Fail>
    requires { SessionFits session.now }
{
    let mut text = known_line(alloc, Known::Accepted(case.digest))?;
    let lines = tx_lines(alloc, &case.config, &session.tx)?;
    text.push_str(&lines)?;
    Ok(text)
}

#[test]
fn an_aborted_call_is_made_again(rt: HostRuntime) -> Result<(), Fail> {
    let alloc = rt.alloc();
    let one = make_case(&rt, alloc, (1, 0), &[2, 3], &[])?;
    let next = next_case(&rt, alloc, &one)?;
    let said = [
        (&one, Word::Coin(5)),
        (&one, Word::Aborted),
        (&one, Word::Aborted),
        (&one, Word::Coin(5)),
        (&one, Word::Accepted),
        (&next, Word::Accepted),
    ];
    let hex = print_bytes(alloc, &one.digest)?;
    let line = format!(in alloc; "aborted {hex}\n")?;
    let (ending, offered) = tried(&rt, alloc, said.as_slice(), 2, line.as_str())?;
    let accepted = Ending::Knows(Known::Accepted(next.digest));
    assert!(rt; is_ended(&ending, accepted));
    assert_eq!(rt; offered, 3);
    // The last try's line isn't printed here.
    let (ending, offered) = tried(&rt, alloc, said.as_slice(), 1, "")?;
    let aborted = Ending::Knows(Known::Aborted(one.digest));
    assert!(rt; is_ended(&ending, aborted));
    assert_eq!(rt; offered, 2);
    Ok(())
}

#[test]
fn a_session_is_asked_for_again(rt: HostRuntime) -> Result<(), Fail> {
    let alloc = rt.alloc();
    let one = make_case(&rt, alloc, (1, 0), &[2, 3], &[])?;
    let session = spend(alloc, one.name, 5, &[2, 3], 1)?;
    let client = resume(&rt, alloc, &one, session)?;
    let said = [(&one, Word::Coin(9)), (&one, Word::Accepted)];
    let mut link = link_of(&rt, alloc, said.as_slice())?;
    let ending = attend(alloc, client, &mut link, Until::Turns(9));
    assert_eq!(rt; ending, Ending::Knows(Known::Accepted(one.digest)));
    assert_eq!(rt; link.offered().len(), 1);
    Ok(())
}

#[test]
fn details_are_told(rt: HostRuntime) -> Result<(), Fail> {
    let alloc = rt.alloc();
    let one = make_case(&rt, alloc, (1, 0), &[2, 3], &[])?;
    let session = spend(alloc, one.name, 5, &[2, 3], 1)?;
    assert!(rt; session.fits());
    let said = [(&one, Word::Coin(5)), (&one, Word::Accepted)];
    let accepted = accepted_lines(alloc, &one, &session)?;
    let mut text = session_line(alloc, &session)?;
    text.push_str(&accepted)?;
    let client = start(&rt, alloc, &one, &[2, 3], &[])?;
    let (ending, offered) = attended(&rt, alloc, client, said.as_slice(), true, 1, text.as_str())?;
    assert!(rt; is_told(&ending, &one.digest));
    assert_eq!(rt; offered, 2);
    // A session that was made before isn't announced.
    let client = resume(&rt, alloc, &one, session)?;
    let (ending, offered) = attended(
        &rt,
        alloc,
        client,
        said.as_slice(),
        true,
        1,
        accepted.as_str(),
    )?;
    assert!(rt; is_told(&ending, &one.digest));
    assert_eq!(rt; offered, 1);
    Ok(())
}
