//! A pool against a plain list.
use crate::plain_pool::{Due, PlainPool, is_concerned};
use cs_base::{Config, Memory, NodeId, Sequence};
use cs_node_pool::Pool;
use cs_node_state::{Ballot, Pooled};
use cs_test_samples::{Draws, Transfer, coin};
use cs_tx::{
    Action, Digest, Encoded, Entry, Session, Vote, concerned, session_digest, well_formed,
};
use std::alloc::Global;
use std::process::Abort;
use std::test::Fail;

/// How many sessions come and go.
const SESSIONS: u64 = 12;

/// The name of an input of a shard.
fn name_in(number: u64, shard: u8) -> Digest {
    let mut name = [7; 32];
    name[0] = (number % 256) as u8;
    name[28] = 0;
    name[29] = 0;
    name[30] = 0;
    name[31] = shard;
    name
}

fn session(alloc: Global, number: u64) -> Result<Session, Memory> {
    let mut transfer = Transfer::new(alloc);
    for shard in 0..2 {
        if is_concerned(number, u16::from(shard)) {
            let input = (name_in(number, shard), coin(alloc, 0)?);
            transfer.inputs.push(input)?;
        }
    }
    transfer.into_session(alloc, number)
}

/// The digest of the session of a number.
fn digest_of(rt: &impl Abort, alloc: Global, number: u64) -> Result<Digest, Fail> {
    let session = session(alloc, number)?;
    assert!(rt; session.fits());
    Ok(session_digest(alloc, &session)?)
}

/// A session enters where it isn't there.
fn enter(
    rt: &impl Abort,
    alloc: Global,
    pool: &mut Pool,
    plain: &mut PlainPool,
    number: u64,
    locked: bool,
) -> Result<(), Fail> {
    let session = session(alloc, number)?;
    assert!(rt; session.fits());
    let digest = session_digest(alloc, &session)?;
    let there = pool.contains(&digest)?;
    assert!(rt; there == plain.contains(number));
    if there {
        return Ok(());
    }
    assert!(rt; well_formed(alloc, &session, pool.config()).is_ok());
    let shards = concerned(alloc, &session, pool.config())?;
    let ballots = Sequence::new(alloc);
    let pooled = Pooled {
        session,
        locked,
        ballots,
    };
    pool.push(digest, pooled, shards)?;
    plain.push(alloc, number, locked)?;
    Ok(())
}

/// A node of one of two shards votes.
fn vote(
    rt: &impl Abort,
    alloc: Global,
    pool: &mut Pool,
    plain: &mut PlainPool,
    draws: &mut Draws,
    number: u64,
) -> Result<(), Fail> {
    let sender = NodeId {
        shard: draws.below(2) as u16,
        index: draws.below(4) as u16,
    };
    let vote = if draws.below(3) == 0 {
        Vote::Abort
    } else {
        Vote::Commit
    };
    let session = session(alloc, number)?;
    assert!(rt; session.fits());
    let digest = session_digest(alloc, &session)?;
    assert!(rt; pool.holds(&digest, &session)? == plain.contains(number));
    let answer = pool.count(&digest, Ballot { sender, vote })?;
    assert!(rt; answer == plain.count(number, sender, vote)?);
    Ok(())
}

fn leave(
    rt: &impl Abort,
    alloc: Global,
    pool: &mut Pool,
    plain: &mut PlainPool,
    number: u64,
) -> Result<(), Fail> {
    pool.remove(&digest_of(rt, alloc, number)?)?;
    plain.remove(number);
    Ok(())
}

fn shown(action: &Action) -> Due {
    match action {
        Action::Prepare(session) => Due {
            decision: None,
            number: session.number,
        },
        Action::Decide(vote, session) => Due {
            decision: Some(*vote),
            number: session.number,
        },
    }
}

/// What the actions of an entry are.
fn shown_all(alloc: Global, entry: Option<Entry>) -> Result<Vec<Due>, Memory> {
    let mut due = Vec::new(alloc);
    if let Some(entry) = entry {
        for action in entry.actions.as_slice() {
            due.push(shown(action))?;
        }
    }
    Ok(due)
}

/// Both say the same, and what is due: in version 1 the first of it alone.
fn are_alike(
    rt: &impl Abort,
    alloc: Global,
    pool: &Pool,
    plain: &PlainPool,
) -> Result<Vec<Due>, Fail> {
    assert!(rt; pool.waiting()? == plain.waiting());
    let entry = pool.due(alloc)?;
    if let Some(entry) = &entry {
        let first = entry.actions.as_slice().first().expect(rt, "an action");
        assert!(rt; pool.known(first.session())?.is_some());
    }
    let due = shown_all(alloc, entry)?;
    let mut told = plain.due(alloc)?;
    if pool.config().version == 1 {
        told.truncate(1);
    }
    assert!(rt; due == told);
    Ok(due)
}

fn step(
    rt: &impl Abort,
    alloc: Global,
    pool: &mut Pool,
    plain: &mut PlainPool,
    draws: &mut Draws,
) -> Result<(), Fail> {
    let number = draws.below(SESSIONS);
    match draws.below(16) {
        0 => enter(rt, alloc, pool, plain, number, true)?,
        1 | 2 => enter(rt, alloc, pool, plain, number, false)?,
        3 => leave(rt, alloc, pool, plain, number)?,
        4 | 5 => {
            pool.lock(&digest_of(rt, alloc, number)?)?;
            plain.lock(number);
        }
        _ => vote(rt, alloc, pool, plain, draws, number)?,
    }
    Ok(())
}

/// How often each entry was due.
#[derive(Drop)]
struct Counts {
    commits: u32,
    aborts: u32,
    votes: u32,
}

impl Counts {
    fn add(&mut self, due: Due) {
        let count = match due.decision {
            Some(Vote::Commit) => &mut self.commits,
            Some(Vote::Abort) => &mut self.aborts,
            None => &mut self.votes,
        };
        *count = count.wrapping_add(1);
    }
}

/// Some of the sessions on which a decision is due are decided, and leave.
fn decide_some(
    rt: &impl Abort,
    alloc: Global,
    pool: &mut Pool,
    plain: &mut PlainPool,
    draws: &mut Draws,
    due: &Vec<Due>,
) -> Result<(), Fail> {
    for told in due {
        if told.decision.is_some() && draws.below(2) == 0 {
            leave(rt, alloc, pool, plain, told.number)?;
        }
    }
    Ok(())
}

fn run(rt: &impl Abort, alloc: Global, version: u8, steps: u32) -> Result<Counts, Fail> {
    let config = Config::with_version(2, 1, 0, version).expect(rt, "a configuration");
    let mut pool = Pool::new(alloc, config);
    let mut plain = PlainPool::new(alloc, 1);
    let mut draws = Draws::new(1);
    let mut counts = Counts {
        commits: 0,
        aborts: 0,
        votes: 0,
    };
    for _ in 0..steps {
        step(rt, alloc, &mut pool, &mut plain, &mut draws)?;
        let due = are_alike(rt, alloc, &pool, &plain)?;
        for told in &due {
            counts.add(*told);
        }
        decide_some(rt, alloc, &mut pool, &mut plain, &mut draws, &due)?;
    }
    Ok(counts)
}

#[test]
fn two_thousand_calls_on_twelve_sessions(rt: HostRuntime) -> Result<(), Fail> {
    let counts = run(&rt, rt.alloc(), 1, 2000)?;
    assert!(rt; counts.commits > 50 && counts.aborts > 50 && counts.votes > 50);
    Ok(())
}

#[test]
fn three_thousand_calls_where_all_that_is_due_is_told(rt: HostRuntime) -> Result<(), Fail> {
    let counts = run(&rt, rt.alloc(), 2, 3000)?;
    assert!(rt; counts.commits > 50 && counts.aborts > 50 && counts.votes > 50);
    Ok(())
}
