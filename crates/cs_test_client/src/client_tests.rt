//! A client that splits a coin, told by nodes of one shard and of three.
use crate::cases::{Case, READ, Word, make_case, sealed, start, start_from, start_given};
use cs_base::{NodeId, Sequence};
use cs_client::{ClientCore, ClientError, Input, Known, Out, known_line};
use cs_proc::ProcError;
use std::alloc::Global;
use std::process::Abort;
use std::test::Fail;

// Who says what, and the kinds that the client says then, each to all nodes of a shard.
type Step = (u16, u16, Word, &'static [(u8, u16)]);

// Whether a datagram is of this kind and for this node.
fn is_said(out: Option<&Out>, kind: u8, to: NodeId) -> bool {
    match out {
        Some(out) => out.to == to && out.bytes.as_slice().get(4) == Some(&kind),
        None => false,
    }
}

// Whether these are the datagrams of these kinds to all nodes of these shards.
fn are_said(outs: &[Out], members: u16, said: &[(u8, u16)]) -> bool {
    let mut left = outs.iter();
    for (kind, shard) in said {
        for index in 0..members {
            let to = NodeId {
                shard: *shard,
                index,
            };
            if !is_said(left.next(), *kind, to) {
                return false;
            }
        }
    }
    left.next().is_none()
}

// One input, and what the client says of it.
fn step(
    rt: &impl Abort,
    alloc: Global,
    case: &Case,
    core: ClientCore,
    from: NodeId,
    word: Word,
) -> Result<(ClientCore, Sequence<Out>), Fail> {
    if let Word::Tick = word {
        return Ok(core.step(alloc, Input::Tick)?);
    }
    let bytes = sealed(rt, alloc, case, from, word)?;
    Ok(core.step(alloc, Input::Datagram(&bytes))?)
}

// What a client knows at the end of these steps.
fn play(
    rt: &impl Abort,
    alloc: Global,
    case: &Case,
    client: ClientCore,
    steps: &[Step],
) -> Result<Known, Fail> {
    let mut core = client;
    let members = case.config.f.saturating_mul(3).saturating_add(1);
    for (shard, index, word, said) in steps {
        let from = NodeId {
            shard: *shard,
            index: *index,
        };
        let (next, outs) = step(rt, alloc, case, core, from, *word)?;
        assert!(rt; are_said(outs.as_slice(), members, *said), "{from}");
        core = next;
    }
    Ok(core.known())
}

const SPLIT: [Step; 3] = [
    (0, 0, Word::Tick, &[(10, 0)]),
    (0, 0, Word::Coin(5), &[(1, 0)]),
    (0, 0, Word::Accepted, &[]),
];

#[test]
fn client_in_memory(rt: HostRuntime) -> Result<(), Fail> {
    let alloc = rt.alloc();
    let one = make_case(&rt, alloc, (1, 0), &[2, 3], &[])?;
    let client = start(&rt, alloc, &one, &[2, 3], &[])?;
    let known = play(&rt, alloc, &one, client, SPLIT.as_slice())?;
    assert_eq!(rt; known, Known::Accepted(one.digest));

    // One node of four.
    let four = make_case(&rt, alloc, (1, 1), &[2, 3], &[])?;
    let client = start(&rt, alloc, &four, &[2, 3], &[])?;
    let steps = [
        (0, 0, Word::Coin(5), [].as_slice()),
        (0, 0, Word::Accepted, [].as_slice()),
    ];
    assert_eq!(rt;
        play(&rt, alloc, &four, client, steps.as_slice())?,
        Known::Open
    );
    Ok(())
}

#[test]
fn a_refusal_has_its_cause(rt: HostRuntime) -> Result<(), Fail> {
    let alloc = rt.alloc();
    let one = make_case(&rt, alloc, (1, 0), &[2, 3], &[])?;
    let client = start(&rt, alloc, &one, &[2, 4], &[])?;
    let node = NodeId { shard: 0, index: 0 };
    let bytes = sealed(&rt, alloc, &one, node, Word::Coin(5))?;
    let refusal = client.step(alloc, Input::Datagram(&bytes)).err();
    let cause = ProcError::CheckerNo(0);
    assert_eq!(rt; refusal, Some(ClientError::Refused(cause)));
    Ok(())
}

// Node 3 lies, and node 0 changes its mind.
const LIES: [Step; 16] = [
    (0, 1, Word::Accepted, &[]),
    (0, 2, Word::Accepted, &[]),
    (0, 3, Word::Coin(9), &[]),
    (0, 3, Word::Coin(9), &[]),
    (0, 0, Word::Coin(5), &[]),
    (0, 0, Word::NoCoin, &[]),
    (0, 1, Word::Coin(5), &[]),
    (0, 0, Word::Tick, &[(10, 0)]),
    (0, 2, Word::SharedCoin(5), &[(1, 0)]),
    (0, 3, Word::Aborted, &[]),
    (0, 3, Word::Aborted, &[]),
    (0, 1, Word::Accepted, &[]),
    (0, 1, Word::Accepted, &[]),
    (0, 2, Word::Other, &[]),
    (0, 0, Word::Tick, &[(1, 0)]),
    (0, 2, Word::Accepted, &[]),
];

#[test]
fn one_of_four_lies(rt: HostRuntime) -> Result<(), Fail> {
    let alloc = rt.alloc();
    let four = make_case(&rt, alloc, (1, 1), &[2, 3], &[])?;
    let (before, _) = LIES.as_slice().split_at(15);
    let client = start(&rt, alloc, &four, &[2, 3], &[])?;
    assert_eq!(rt; play(&rt, alloc, &four, client, before)?, Known::Open);
    let client = start(&rt, alloc, &four, &[2, 3], &[])?;
    let known = play(&rt, alloc, &four, client, LIES.as_slice())?;
    assert_eq!(rt; known, Known::Accepted(four.digest));
    Ok(())
}

// Two nodes each say that the coin is worth 9 and 5, before the one that is read is known.
const TWO: [Step; 7] = [
    (0, 1, Word::Coin(9), &[]),
    (0, 2, Word::Coin(9), &[]),
    (0, 0, Word::Coin(5), &[]),
    (0, 3, Word::Coin(5), &[]),
    (0, 0, Word::Tick, &[(10, 0), (10, 0)]),
    (0, 1, Word::Read(1), &[]),
    (0, 3, Word::Read(1), &[(1, 0)]),
];

#[test]
fn of_two_objects_that_of_the_first_node_counts(rt: HostRuntime) -> Result<(), Fail> {
    let alloc = rt.alloc();
    let four = make_case(&rt, alloc, (1, 1), &[2, 3], &[])?;
    let client = start(&rt, alloc, &four, &[2, 3], &[READ])?;
    let known = play(&rt, alloc, &four, client, TWO.as_slice())?;
    assert_eq!(rt; known, Known::Open);
    Ok(())
}

// The coin lies in shard 2, and an output in each of the others; their dummies are asked for, and
// the nodes of shard 2 abort and accept.
const DUMMIES: [Step; 24] = [
    (1, 0, Word::Dummy(1, 2), &[]),
    (2, 0, Word::Coin(8), &[]),
    (0, 1, Word::Coin(8), &[]),
    (2, 1, Word::Coin(8), &[(10, 0), (10, 1)]),
    (0, 0, Word::Tick, &[(10, 0), (10, 1)]),
    (0, 0, Word::Dummy(0, 4), &[]),
    (0, 1, Word::Dummy(0, 4), &[]),
    (0, 2, Word::Dummy(0, 2), &[]),
    (0, 3, Word::Dummy(0, 2), &[]),
    (0, 0, Word::Dummy(1, 2), &[]),
    (1, 1, Word::Dummy(1, 3), &[]),
    (1, 0, Word::NoDummy(1, 7), &[]),
    (1, 2, Word::Dummy(1, 2), &[]),
    (1, 3, Word::Dummy(1, 3), &[(1, 0), (1, 1), (1, 2)]),
    (0, 0, Word::Accepted, &[]),
    (0, 3, Word::Accepted, &[]),
    (1, 1, Word::Accepted, &[]),
    (1, 2, Word::Accepted, &[]),
    (2, 1, Word::Accepted, &[]),
    (2, 2, Word::Aborted, &[]),
    (0, 0, Word::Tick, &[(1, 0), (1, 1), (1, 2)]),
    (2, 3, Word::Aborted, &[]),
    (0, 0, Word::Tick, &[]),
    (2, 0, Word::Accepted, &[]),
];

#[test]
fn dummies_of_two_shards(rt: HostRuntime) -> Result<(), Fail> {
    let alloc = rt.alloc();
    let three = make_case(&rt, alloc, (3, 1), &[1, 7], &[(0, 2), (1, 3)])?;
    let digest = three.digest;
    let rows = [
        (21, Known::Open),
        (23, Known::Aborted(digest)),
        (24, Known::Accepted(digest)),
    ];
    for (count, known) in rows {
        let (steps, _) = DUMMIES.as_slice().split_at(count);
        let client = start(&rt, alloc, &three, &[1, 7], &[])?;
        assert_eq!(rt; play(&rt, alloc, &three, client, steps)?, known);
    }
    Ok(())
}

// The same case, of one node a shard: dummies are asked for from 4 on.
const FROM: [(u16, Word, usize); 8] = [
    (2, Word::Coin(8), 128),
    (0, Word::Dummy(0, 3), 0),
    (0, Word::Dummy(0, 6), 0),
    (0, Word::Dummy(0, 4), 0),
    (1, Word::Dummy(1, 5), 3),
    (0, Word::Accepted, 0),
    (1, Word::Accepted, 0),
    (2, Word::Accepted, 0),
];

#[test]
fn dummies_are_asked_for_from_a_serial_on(rt: HostRuntime) -> Result<(), Fail> {
    let alloc = rt.alloc();
    let three = make_case(&rt, alloc, (3, 0), &[1, 7], &[(0, 4), (1, 5)])?;
    let mut core = start_from(&rt, alloc, &three, &[1, 7], &[], Some(4))?;
    for (shard, word, said) in FROM {
        let from = NodeId { shard, index: 0 };
        let (next, outs) = step(&rt, alloc, &three, core, from, word)?;
        assert_eq!(rt; outs.len(), said);
        core = next;
    }
    assert_eq!(rt; core.known(), Known::Accepted(three.digest));
    Ok(())
}

// A transaction that is given names no object to ask for.
const GIVEN: [Step; 7] = [
    (0, 0, Word::Tick, &[(10, 0), (10, 1)]),
    (2, 0, Word::Coin(9), &[]),
    (0, 0, Word::Dummy(0, 4), &[]),
    (1, 0, Word::Dummy(1, 5), &[(1, 0), (1, 1), (1, 2)]),
    (0, 0, Word::Accepted, &[]),
    (1, 0, Word::Accepted, &[]),
    (2, 0, Word::Accepted, &[]),
];

#[test]
fn a_given_transaction_is_submitted(rt: HostRuntime) -> Result<(), Fail> {
    let alloc = rt.alloc();
    let three = make_case(&rt, alloc, (3, 0), &[1, 7], &[(0, 4), (1, 5)])?;
    let client = start_given(&rt, alloc, &three, 8, &[1, 7])?;
    let known = play(&rt, alloc, &three, client, GIVEN.as_slice())?;
    assert_eq!(rt; known, Known::Accepted(three.digest));
    Ok(())
}

#[test]
fn a_given_transaction_is_not_judged(rt: HostRuntime) -> Result<(), Fail> {
    let alloc = rt.alloc();
    let one = make_case(&rt, alloc, (1, 0), &[2, 3], &[])?;
    let client = start_given(&rt, alloc, &one, 5, &[2, 4])?;
    let steps = [(0, 0, Word::Tick, [(1, 0)].as_slice())];
    assert_eq!(rt;
        play(&rt, alloc, &one, client, steps.as_slice())?,
        Known::Open
    );
    Ok(())
}

#[test]
fn without_an_input_there_is_nothing_to_do(rt: HostRuntime) -> Result<(), Fail> {
    let alloc = rt.alloc();
    let one = make_case(&rt, alloc, (1, 0), &[2, 3], &[])?;
    let client = start(&rt, alloc, &one, &[], &[])?;
    let steps = [
        (0, 0, Word::Tick, [].as_slice()),
        (0, 0, Word::Tick, [].as_slice()),
        (0, 0, Word::Coin(5), [].as_slice()),
    ];
    assert_eq!(rt;
        play(&rt, alloc, &one, client, steps.as_slice())?,
        Known::Open
    );
    Ok(())
}

#[test]
fn what_is_known_has_a_line(rt: HostRuntime) -> Result<(), Fail> {
    let alloc = rt.alloc();
    let line = known_line(alloc, Known::Open)?;
    assert_eq!(rt; line.as_str(), "open\n");
    let line = known_line(alloc, Known::Aborted([16; 32]))?;
    assert_eq!(rt;
        line.as_str(),
        "aborted 1010101010101010101010101010101010101010101010101010101010101010\n"
    );
    Ok(())
}
