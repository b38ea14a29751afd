//! The votes that logs have.
ghost use Rattle.std.specs.Prelude.{◌≡◌, OnOk};
ghost use Rattle.std.specs.List.{list_any, list_all};
ghost use Rattle.cs_audit.specs.Kept.{no_votes, is_kept, with_shard_digest, votes_noted};

use cs_base::Memory;
use cs_tx::{Action, Digest, Effect, Vote};
use indexmap::IndexSet;
use std::alloc::Global;
use std::marker::Model;

/// The shards whose logs have a vote on a session, each with the session's digest.
#[derive(Drop)]
pub(crate) struct Votes {
    commits: IndexSet<(u16, Digest)>,
    aborts: IndexSet<(u16, Digest)>,
}

impl Model for Votes {
    ghost use Rattle.cs_audit.specs.Votes.{KeptVotes};

    ghost Value = { KeptVotes };

    ghost view = { λ v. record { commits = v.commits.keys; aborts = v.aborts.keys } };
}

impl Votes {
    pub(crate) fn new(alloc: Global) -> Votes
        ensures { result ≡ no_votes }
    {
        Votes {
            commits: IndexSet::new(alloc),
            aborts: IndexSet::new(alloc),
        }
    }

    fn commit(&mut self, shard: u16, digest: Digest) -> Result<(), Memory>
        ensures { OnOk result (self.new ≡ record self.old {
          commits = with_shard_digest shard digest self.old.commits;
        }) }
    {
        self.commits.insert((shard, digest))?;
        Ok(())
    }

    fn abort(&mut self, shard: u16, digest: Digest) -> Result<(), Memory>
        ensures { OnOk result (self.new ≡ record self.old {
          aborts = with_shard_digest shard digest self.old.aborts;
        }) }
    {
        self.aborts.insert((shard, digest))?;
        Ok(())
    }

    /// Notes what the execution of an entry came to in a shard.
    pub(crate) fn note(
        &mut self,
        shard: u16,
        entry: &Action,
        came_to: Effect,
        digest: Digest,
    ) -> Result<(), Memory>
        ensures { OnOk result (self.new ≡ votes_noted shard entry.now came_to digest self.old) }
    {
        match (entry, came_to) {
            (Action::Prepare(_), Effect::Voted(Vote::Commit)) => self.commit(shard, digest),
            (Action::Prepare(_), Effect::Voted(Vote::Abort)) => self.abort(shard, digest),
            _ => Ok(()),
        }
    }

    fn has_commit(&self, shard: u16, digest: Digest) -> bool
        ensures { result ≡ is_kept self.now.commits digest shard }
    {
        self.commits.contains(&(shard, digest))
    }

    fn has_abort(&self, shard: u16, digest: Digest) -> bool
        ensures { result ≡ is_kept self.now.aborts digest shard }
    {
        self.aborts.contains(&(shard, digest))
    }

    /// Whether each of the shards has a vote commit on a session.
    pub(crate) fn all_commit(&self, shards: &[u16], digest: Digest) -> bool
        ensures { result ≡ list_all (is_kept self.now.commits digest) shards.now }
    {
        shards.iter().all(|shard| self.has_commit(*shard, digest))
    }

    /// Whether one of the shards has a vote abort on a session.
    pub(crate) fn one_aborts(&self, shards: &[u16], digest: Digest) -> bool
        ensures { result ≡ list_any (is_kept self.now.aborts digest) shards.now }
    {
        shards.iter().any(|shard| self.has_abort(*shard, digest))
    }
}
