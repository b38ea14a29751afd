//! A pool as a plain list, each of whose calls goes over all of it.
use cs_base::{Memory, NodeId};
use cs_node_pool::Counted;
use cs_tx::Vote;
use std::alloc::Global;

/// What is due: a decision, or a vote where there is none, on the session of a number.
#[derive(Clone, Copy, PartialEq, Eq)]
pub struct Due {
    pub decision: Option<Vote>,
    pub number: u64,
}

/// Whether the session of a number concerns a shard: by its number the first, the second, or both.
pub fn is_concerned(number: u64, shard: u16) -> bool {
    number % 3 == 2 || number % 3 == u64::from(shard)
}

#[derive(Drop)]
struct PlainSession {
    number: u64,
    locked: bool,
    votes: Vec<(NodeId, Vote)>,
}

impl PlainSession {
    /// Whether more than f nodes of the shard gave the vote.
    fn is_supported(&self, f: usize, vote: Vote, shard: u16) -> bool {
        let count = self
            .votes
            .iter()
            .filter(|given| given.0.shard == shard && given.1 == vote)
            .count();
        count > f
    }

    fn decision(&self, f: usize) -> Option<Vote> {
        let concerned = [is_concerned(self.number, 0), is_concerned(self.number, 1)];
        let commits = [
            self.is_supported(f, Vote::Commit, 0),
            self.is_supported(f, Vote::Commit, 1),
        ];
        let aborts = [
            self.is_supported(f, Vote::Abort, 0),
            self.is_supported(f, Vote::Abort, 1),
        ];
        if (!concerned[0] || commits[0]) && (!concerned[1] || commits[1]) {
            Some(Vote::Commit)
        } else if concerned[0] && aborts[0] || concerned[1] && aborts[1] {
            Some(Vote::Abort)
        } else {
            None
        }
    }
}

#[derive(Drop)]
pub struct PlainPool {
    f: usize,
    sessions: Vec<PlainSession>,
}

impl PlainPool {
    pub fn new(alloc: Global, f: usize) -> PlainPool {
        PlainPool {
            f,
            sessions: Vec::new(alloc),
        }
    }

    pub fn contains(&self, number: u64) -> bool {
        self.sessions.iter().any(|session| session.number == number)
    }

    pub fn push(&mut self, alloc: Global, number: u64, locked: bool) -> Result<(), Memory> {
        self.sessions.push(PlainSession {
            number,
            locked,
            votes: Vec::new(alloc),
        })?;
        Ok(())
    }

    pub fn remove(&mut self, number: u64) {
        self.sessions.retain(|session| session.number != number);
    }

    pub fn count(&mut self, number: u64, from: NodeId, vote: Vote) -> Result<Counted, Memory> {
        for session in self.sessions.iter_mut() {
            if session.number == number {
                if session.votes.iter().any(|given| given.0 == from) {
                    return Ok(Counted::Repeat);
                }
                session.votes.push((from, vote))?;
                return Ok(Counted::Counted);
            }
        }
        Ok(Counted::NotPooled)
    }

    pub fn lock(&mut self, number: u64) {
        for session in self.sessions.iter_mut() {
            if session.number == number {
                session.locked = true;
            }
        }
    }

    pub fn waiting(&self) -> usize {
        self.sessions
            .iter()
            .filter(|session| !session.locked)
            .count()
    }

    fn decisions(&self, alloc: Global) -> Result<Vec<Due>, Memory> {
        let mut decisions = Vec::new(alloc);
        for session in &self.sessions {
            if let (true, Some(vote)) = (session.locked, session.decision(self.f)) {
                decisions.push(Due {
                    decision: Some(vote),
                    number: session.number,
                })?;
            }
        }
        Ok(decisions)
    }

    /// All that is due: the decisions, and then the votes.
    pub fn due(&self, alloc: Global) -> Result<Vec<Due>, Memory> {
        let mut due = self.decisions(alloc)?;
        for session in &self.sessions {
            if !session.locked {
                due.push(Due {
                    decision: None,
                    number: session.number,
                })?;
            }
        }
        Ok(due)
    }
}
