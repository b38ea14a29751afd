//! The history, kept from the executions as they come.
ghost use Rattle.std.specs.Prelude.{◌≡◌, ◌<◌, ◌==◌, [], length, IfOk, OnOk, List, replicate};
ghost use Rattle.cs_tx_types.specs.Session.{SessionFits, ActionFits, session_in};
ghost use Rattle.cs_node_state.specs.Setup.{Setup};
ghost use Rattle.cs_replay_rules.specs.Aborts.{with_aborted_digest};
ghost use Rattle.cs_node_rules.specs.World.{Execution, with_first_execution};
ghost use Rattle.cs_node_rules.specs.Signs.{Did};
ghost use Rattle.cs_table.specs.Effects.{effect_of};
ghost use Rattle.cs_tx.specs.Votes.{vote_of};
ghost use Rattle.std.specs.List.{list_all};
ghost use Rattle.cs_tx.specs.Digest.{digest_of_session};
ghost use Rattle.cs_replay_play.specs.Kept.{KeepsHistory, IsBeforeFirst, is_commit, all_voted_commit, after_vote, told_next, after_execution, is_new, kept_after, with_abort};

use cs_base::{Config, Memory};
use cs_node::Effect;
use cs_tx::{Action, Digest, Session, Vote, concerned, tx_digest};
use indexmap::IndexSet;
use std::alloc::Global;
use std::marker::Model;

/// What was executed so far, as far as the history and the count of aborts need it. For the history
/// the first execution in a place of a slot counts, for aborts each.
#[derive(Drop)]
pub struct History {
    config: Config,
    // The slot after the newest execution of each shard, which is 0 before the first, and its
    // place. The number of a slot is below 2^64.
    slots: Vec<u128>,
    places: Vec<u8>,
    // The shards that voted commit, each with the session's digest.
    commits: IndexSet<(u16, Digest)>,
    // The transactions on which every concerned shard has voted commit, in that order.
    told: IndexSet<Digest>,
    // The sessions on which a node decided abort, in the order in which one first did.
    aborted: IndexSet<Digest>,
}

impl Model for History {
    ghost use Rattle.cs_replay_play.specs.Kept.{KeptHistory};
    ghost use Rattle.std.specs.Prelude.{◌≡◌, length};

    ghost Value = { KeptHistory };

    ghost view = { λ h. record {
      config = h.config;
      slots = h.slots.items;
      places = h.places.items;
      commits = h.commits.keys;
      told = h.told.keys;
      aborted = h.aborted.keys;
    } };

    ghost invariant = { λ h. (length h.slots.items ≡ h.config.shards)
        × (length h.places.items ≡ h.config.shards) };
}

impl History {
    /// Before the first execution.
    pub fn new(alloc: Global, config: Config) -> Result<History, Memory>
        ensures empty { IfOk result IsBeforeFirst }
        ensures none { IfOk result (λ history. history.aborted ≡ []) }
        ensures config { IfOk result (λ history. history.config ≡ config) }
    {
        Ok(History {
            config,
            slots: vec![in alloc; 0; config.shards as usize]?,
            places: vec![in alloc; 0; config.shards as usize]?,
            commits: IndexSet::new(alloc),
            told: IndexSet::new(alloc),
            aborted: IndexSet::new(alloc),
        })
    }

    /// The digests of the transactions, in the order of the history.
    pub fn told(&self) -> &[Digest]
        ensures { result.now ≡ self.now.told }
    {
        self.told.as_slice()
    }

    /// The digests of the sessions on which a node decided abort, in the order in which one first
    /// did.
    pub fn aborted(&self) -> &[Digest]
        ensures { result.now ≡ self.now.aborted }
    {
        self.aborted.as_slice()
    }

    /// Adds the execution of an entry, whose session has this digest, at a node of the shard. Nothing
    /// is added to the history of a shard that the configuration doesn't have.
    pub fn execute(
        &mut self,
        alloc: Global,
        shard: u16,
        slot: u64,
        place: u8,
        entry: &Action,
        digest: &Digest,
        effect: Effect,
    ) -> Result<(), Memory>
        requires fits { ActionFits entry.now }
        requires named { digest.now ≡ digest_of_session (session_in entry.now) }
        ensures kept { (setup : Setup) (firsts : List Execution)
            → shard < self.old.config.shards → KeepsHistory setup firsts self.old
            → OnOk result (KeepsHistory setup
            (with_first_execution shard (Did slot place entry.now (effect_of effect)) firsts) self.new) }
        ensures aborted { OnOk result (self.new.aborted
            ≡ with_abort entry.now (effect_of effect) self.old.aborted) }
        ensures config { OnOk result (self.new.config ≡ self.old.config) }
    {
        self.enter(alloc, shard, slot, place, entry, digest, effect)?;
        self.note_abort(entry, digest, effect)
    }

    // The session of an execution that decides abort on it.
    fn note_abort(&mut self, entry: &Action, digest: &Digest, effect: Effect) -> Result<(), Memory>
        requires { digest.now ≡ digest_of_session (session_in entry.now) }
        ensures { OnOk result (self.new ≡ record self.old {
          aborted = with_abort entry.now (effect_of effect) self.old.aborted;
        }) }
    {
        match (entry, effect) {
            (Action::Prepare(_), Effect::Voted(Vote::Abort)) => self.abort(digest),
            (Action::Decide(_, _), Effect::Aborted) => self.abort(digest),
            _ => Ok(()),
        }
    }

    fn abort(&mut self, digest: &Digest) -> Result<(), Memory>
        ensures { OnOk result (self.new ≡ record self.old {
          aborted = with_aborted_digest digest.now self.old.aborted;
        }) }
    {
        self.aborted.insert(*digest)?;
        Ok(())
    }

    fn enter(
        &mut self,
        alloc: Global,
        shard: u16,
        slot: u64,
        place: u8,
        entry: &Action,
        digest: &Digest,
        effect: Effect,
    ) -> Result<(), Memory>
        requires fits { ActionFits entry.now }
        requires named { digest.now ≡ digest_of_session (session_in entry.now) }
        ensures kept { shard < self.old.config.shards
            → OnOk result (self.new ≡ kept_after self.old shard slot place entry.now (effect_of effect)) }
        ensures aborted { OnOk result (self.new.aborted ≡ self.old.aborted) }
        ensures config { OnOk result (self.new.config ≡ self.old.config) }
    {
        let index = shard as usize;
        if index >= self.slots.len() {
            return Ok(());
        }
        if !self.comes_after(index, slot, place) {
            return Ok(());
        }
        self.slots[index] = u128::from(slot) + 1;
        self.places[index] = place;
        self.note(alloc, shard, entry, digest, effect)
    }

    // Whether a place of a slot comes after that of the newest execution of a shard.
    fn comes_after(&self, index: usize, slot: u64, place: u8) -> bool
        requires { index < length self.now.slots }
        ensures { result ≡ is_new self.now index slot place }
    {
        let next = u128::from(slot) + 1;
        let newest = self.slots[index];
        newest < next || (newest == next && self.places[index] < place)
    }

    // What a new execution gives: a vote on a session. What is void gives nothing.
    fn note(
        &mut self,
        alloc: Global,
        shard: u16,
        entry: &Action,
        digest: &Digest,
        effect: Effect,
    ) -> Result<(), Memory>
        requires fits { ActionFits entry.now }
        requires named { digest.now ≡ digest_of_session (session_in entry.now) }
        ensures { OnOk result (self.new ≡ after_execution self.old shard entry.now (effect_of effect)) }
    {
        match (entry, effect) {
            (Action::Prepare(session), Effect::Voted(vote)) => {
                self.prepare(alloc, shard, session, *digest, vote)
            }
            _ => Ok(()),
        }
    }

    // A vote on a session: where it is the last of its commit votes, the transaction is told.
    fn prepare(
        &mut self,
        alloc: Global,
        shard: u16,
        session: &Session,
        digest: Digest,
        vote: Vote,
    ) -> Result<(), Memory>
        requires fits { SessionFits session.now }
        requires digest { digest ≡ digest_of_session session.now }
        ensures { OnOk result (self.new ≡ told_next
            (after_vote self.old shard (digest_of_session session.now) (vote_of vote)) session.now) }
    {
        self.note_vote(shard, digest, vote)?;
        self.tell(alloc, session, digest)
    }

    // A shard's vote on a session of this digest: a commit vote is kept.
    fn note_vote(&mut self, shard: u16, digest: Digest, vote: Vote) -> Result<(), Memory>
        ensures { OnOk result (self.new ≡ after_vote self.old shard digest (vote_of vote)) }
    {
        match vote {
            Vote::Commit => {
                self.commits.insert((shard, digest))?;
                Ok(())
            }
            Vote::Abort => Ok(()),
        }
    }

    // Tells the transaction of a session, where every concerned shard has voted commit.
    fn tell(&mut self, alloc: Global, session: &Session, digest: Digest) -> Result<(), Memory>
        requires fits { SessionFits session.now }
        requires digest { digest ≡ digest_of_session session.now }
        ensures { OnOk result (self.new ≡ told_next self.old session.now) }
    {
        if self.has_all_commits(alloc, session, digest)? {
            let transaction = tx_digest(alloc, &session.tx)?;
            self.told.insert(transaction)?;
        }
        Ok(())
    }

    fn has_all_commits(
        &self,
        alloc: Global,
        session: &Session,
        digest: Digest,
    ) -> Result<bool, Memory>
        requires fits { SessionFits session.now }
        requires digest { digest ≡ digest_of_session session.now }
        ensures { IfOk result (λ all.
            all ≡ all_voted_commit self.now.config self.now.commits session.now) }
    {
        let shards = concerned(alloc, session, &self.config)?;
        Ok(self.have_committed(shards.as_slice(), digest))
    }

    fn have_committed(&self, shards: &[u16], digest: Digest) -> bool
        ensures { result ≡ list_all (is_commit self.now.commits digest) shards.now }
    {
        shards.iter().all(|shard| self.has_commit(*shard, digest))
    }

    fn has_commit(&self, shard: u16, digest: Digest) -> bool
        ensures { result ≡ is_commit self.now.commits digest shard }
    {
        self.commits.contains(&(shard, digest))
    }
}
