//! What is told of a client with details that knows nothing in the end.
use crate::cases::{Case, Word, make_case, resume, sealed, start};
use cs_base::{MemSink, NodeId, Sequence, print_bytes};
use cs_client::ClientCore;
use cs_io::{MemInput, MemLink, Until};
use cs_test_samples::spend;
use cs_tries::{TryEnding, attend_tries};
use std::alloc::Global;
use std::process::Abort;
use std::test::Fail;

// A tick, and then what these nodes say.
fn link_by(
    rt: &impl Abort,
    alloc: Global,
    case: &Case,
    said: &[(u16, u16, Word)],
) -> Result<MemLink, Fail> {
    let mut inputs = Vec::new(alloc);
    inputs.push(MemInput::Tick)?;
    for (shard, index, word) in said {
        let node = NodeId {
            shard: *shard,
            index: *index,
        };
        let bytes = sealed(rt, alloc, case, node, *word)?;
        inputs.push(MemInput::Datagram(Sequence::from_vec(bytes)))?;
    }
    Ok(MemLink::new(alloc, inputs, Vec::new(alloc)))
}

// Holds where these lines are told of a client once the nodes have said this.
fn tells(
    rt: &impl Abort,
    alloc: Global,
    case: &Case,
    client: ClientCore,
    said: &[(u16, u16, Word)],
    lines: &str,
) -> Result<(), Fail> {
    let mut link = link_by(rt, alloc, case, said)?;
    let mut out = MemSink::new(alloc, Vec::new(alloc));
    let until = Until::Turns(9);
    let ending = attend_tries(alloc, client, true, 1, &mut link, &mut out, until);
    let TryEnding::Waits(text) = ending else {
        panic!(rt; "no lines");
    };
    assert_eq!(rt; text.as_str(), lines);
    Ok(())
}

// The same of a client of four nodes that splits a coin.
fn four_tell(
    rt: &impl Abort,
    alloc: Global,
    said: &[(u16, u16, Word)],
    lines: &str,
) -> Result<(), Fail> {
    let four = make_case(rt, alloc, (1, 1), &[2, 3], &[])?;
    let client = start(rt, alloc, &four, &[2, 3], &[])?;
    tells(rt, alloc, &four, client, said, lines)
}

#[test]
fn an_object_that_is_used_up_is_told(rt: HostRuntime) -> Result<(), Fail> {
    let alloc = rt.alloc();
    let four = make_case(&rt, alloc, (1, 1), &[2, 3], &[])?;
    let name = print_bytes(alloc, &four.name)?;
    let session = print_bytes(alloc, &[3; 32])?;
    let used = [
        (0, 2, Word::UsedCoin(3)),
        (0, 0, Word::Coin(5)),
        (0, 0, Word::UsedCoin(3)),
    ];
    let lines = format!(in alloc; "open\nused {name} {session}\nsilent 0.1 0.3\n")?;
    four_tell(&rt, alloc, used.as_slice(), lines.as_str())?;
    // Two nodes tell two sessions.
    let apart = [(0, 2, Word::UsedCoin(3)), (0, 0, Word::UsedCoin(4))];
    let lines = format!(in alloc; "open\nwaits objects {name}\nsilent 0.1 0.3\n")?;
    four_tell(&rt, alloc, apart.as_slice(), lines.as_str())?;
    // The last word of each counts.
    let again = [
        (0, 2, Word::UsedCoin(3)),
        (0, 0, Word::UsedCoin(3)),
        (0, 2, Word::NoCoin),
    ];
    four_tell(&rt, alloc, again.as_slice(), lines.as_str())
}

#[test]
fn silent_nodes_are_told(rt: HostRuntime) -> Result<(), Fail> {
    let alloc = rt.alloc();
    let silent = "open\nsilent 0.0 0.1 0.2 0.3\n";
    four_tell(&rt, alloc, &[], silent)?;
    let one = [(0, 3, Word::NoCoin)];
    four_tell(&rt, alloc, one.as_slice(), "open\nsilent 0.0 0.1 0.2\n")?;
    // Whatever it says, it isn't silent.
    let all = [
        (0, 0, Word::Other),
        (0, 1, Word::Other),
        (0, 2, Word::Other),
        (0, 3, Word::Other),
    ];
    four_tell(&rt, alloc, all.as_slice(), "open\n")
}

#[test]
fn dummies_and_answers_are_waited_for(rt: HostRuntime) -> Result<(), Fail> {
    let alloc = rt.alloc();
    let three = make_case(&rt, alloc, (3, 0), &[1, 7], &[(0, 4), (1, 5)])?;
    let said = [(2, 0, Word::Coin(8)), (0, 0, Word::Dummy(0, 4))];
    let client = start(&rt, alloc, &three, &[1, 7], &[])?;
    let lines = "open\nwaits dummies 1\nsilent 1.0\n";
    tells(&rt, alloc, &three, client, said.as_slice(), lines)?;
    // A session that was made before.
    let four = make_case(&rt, alloc, (1, 1), &[2, 3], &[])?;
    let session = spend(alloc, four.name, 5, &[2, 3], 1)?;
    let client = resume(&rt, alloc, &four, session)?;
    let said = [(0, 1, Word::Accepted)];
    let lines = "open\nwaits answers\nsilent 0.0 0.2 0.3\n";
    tells(&rt, alloc, &four, client, said.as_slice(), lines)
}
