//! How a pool is kept, so that no call goes over all its sessions.
ghost use Rattle.std.specs.Prelude.{◌≡◌, ◌↔◌, ◌++◌, ◌∷◌, [], Bool, true, IsTrue, IsSome, OnOk, IfOk, IfSome, None, Some, is_some, option_copied, bytes_eq};
ghost use Rattle.std.specs.Map.{lookup};
ghost use Rattle.std.specs.Ordering.{nat_cmp};
ghost use Rattle.std.specs.BTreeSet.{IsOrdered};
ghost use Rattle.cs_base.specs.declared.config.Config.{Config};
ghost use Rattle.cs_base.specs.Version.{version_of};
ghost use Rattle.cs_tx.specs.Uses.{concerned_shards};
ghost use Rattle.cs_tx.specs.Digest.{digest_of_session};
ghost use Rattle.cs_tx.specs.WellFormed.{IsWellFormed};
ghost use Rattle.cs_tx_types.specs.Session.{SessionFits};
ghost use Rattle.cs_node_state.specs.Pool.{found, without_session, pool_changed, as_locked, with_ballot, waiting_count};
ghost use Rattle.cs_node_state.specs.Admission.{due};
ghost use Rattle.cs_node_pool.specs.Deployed.{AtEverySetup};
ghost use Rattle.cs_node_pool.specs.Fits.{PoolFits, SessionsFit, DueFits};
ghost use Rattle.cs_node_pool.specs.Batches.{actions_at, filled};
ghost use Rattle.cs_node_pool.specs.declared.seat.Seat.{Seat};
ghost use Rattle.cs_node_pool.specs.Calls.{counted_in, locked_in, session_under, IsNext};
ghost use Rattle.cs_node_pool.specs.Seats.{Placed, SoundSeats, AllRight, IsKnownSession, IsPicked, IsMarked, waits, is_due, seat_of_place, first_passing, without_gaps, pool_in};

use crate::answers::Counted;
use crate::batch::Batch;
use crate::same::same_session;
use crate::seat::{Seat, action_on, is_due, known_as, lock, take_vote, waits};
use cs_base::{Config, Memory, Version};
use cs_node_state::{Ballot, Pooled};
use cs_tx::{Digest, Encoded, Entry, Session};
use indexmap::IndexMap;
use std::alloc::Global;
use std::collections::BTreeSet;

/// The seats of sessions under their digests, each at a place, and places rise with each that
/// enters. One that left leaves a gap, so that the others keep their places. Beside them stand how
/// many sessions are there, and the places of those that wait, and of those on which a decision is
/// due.
#[derive(Drop)]
pub struct Kept {
    pub seats: IndexMap<Digest, Option<Seat>>,
    pub sessions: usize,
    pub waiting: BTreeSet<usize>,
    pub ready: BTreeSet<usize>,
}

/// Has a place in a set, or not.
fn mark(chosen: &mut BTreeSet<usize>, place: usize, belongs: bool) -> Result<(), Memory>
    ensures has { OnOk result (IsMarked place belongs chosen.old chosen.new) }
    ensures rising { IsOrdered nat_cmp chosen.new }
{
    if belongs {
        chosen.insert(place)?;
    } else {
        chosen.remove(&place);
    }
    Ok(())
}

/// Finds the places of the sessions that wait, and of those on which a decision is due.
fn pick(
    seats: &IndexMap<Digest, Option<Seat>>,
    waiting: &mut BTreeSet<usize>,
    ready: &mut BTreeSet<usize>,
) -> Result<(), Memory>
    ensures waiting { OnOk result (IsPicked waits waiting.new seats.now.entries) }
    ensures ready { OnOk result (IsPicked is_due ready.new seats.now.entries) }
{
    waiting.clear();
    ready.clear();
    for index in 0..seats.len() {
        let place = &seats[index];
        mark(waiting, index, waits(place))?;
        mark(ready, index, is_due(place))?;
    }
    Ok(())
}

impl Kept {
    /// Nothing yet.
    pub fn new(alloc: Global) -> Self
        ensures sound { (config : Config) → SoundSeats config result }
        ensures empty { pool_in result ≡ [] }
    {
        Kept {
            seats: IndexMap::new(alloc),
            sessions: 0,
            waiting: BTreeSet::new(alloc),
            ready: BTreeSet::new(alloc),
        }
    }

    /// The session of a digest.
    pub fn get(&self, digest: &Digest) -> Option<&Pooled>
        requires { Placed self.now }
        ensures { option_copied result ≡ found digest.now (pool_in self.now) }
    {
        let Some(place) = self.seats.get(digest) else {
            return None;
        };
        match place {
            Some(seat) => Some(&seat.pooled),
            None => None,
        }
    }

    /// The seat at a place.
    fn seat_at(&self, index: usize) -> Option<&Seat>
        ensures { option_copied result ≡ seat_of_place index self.now.seats.entries }
    {
        let Some((_, place)) = self.seats.get_index(index) else {
            return None;
        };
        match place {
            Some(seat) => Some(seat),
            None => None,
        }
    }

    /// The seat at the first of these places.
    fn first_at(&self, places: &BTreeSet<usize>) -> Option<&Seat>
        ensures { (test : Seat → Bool) → IsPicked test places.now self.now.seats.entries →
            option_copied result ≡ first_passing test self.now.seats.entries }
    {
        match places.first() {
            Some(index) => self.seat_at(*index),
            None => None,
        }
    }

    /// The digest of a session that is the next one to be decided or voted on: it is compared with
    /// these two alone, so that nothing is hashed: no clause counts that.
    pub fn known(&self, session: &Session) -> Option<Digest>
        requires { Placed self.now }
        ensures known { (config : Config) → AllRight config self.now.seats.entries →
            IfSome result (IsKnownSession config session.now) }
        ensures next { (config : Config) → AllRight config self.now.seats.entries →
            AtEverySetup config (λ setup.
            IsSome result ↔ IsNext setup (pool_in self.now) session.now) }
    {
        match known_as(self.first_at(&self.ready), session) {
            Some(digest) => Some(digest),
            None => known_as(self.first_at(&self.waiting), session),
        }
    }

    /// Whether exactly this session is there under a digest: then it is well formed.
    pub fn holds(&self, digest: &Digest, session: &Session) -> bool
        requires { Placed self.now }
        ensures held { IsTrue result ↔
            (session_under digest.now (pool_in self.now) ≡ Some session.now) }
        ensures formed { (config : Config) → AllRight config self.now.seats.entries →
            result ≡ true → IsWellFormed config session.now }
    {
        match self.get(digest) {
            Some(pooled) => same_session(&pooled.session, session),
            None => false,
        }
    }

    /// Closes the gaps: the sessions move up, in their order.
    fn close(&mut self) -> Result<(), Memory>
        requires { Placed self.old }
        ensures placed { OnOk result (Placed self.new) }
        ensures seats { OnOk result (self.new.seats.entries ≡ without_gaps self.old.seats.entries) }
    {
        self.seats.retain(
            |_digest: &Digest, place: &mut Option<Seat>| -> bool
                ensures { (result ≡ is_some place.old) × (place.new ≡ place.old) }
            { place.is_some() },
        );
        pick(&self.seats, &mut self.waiting, &mut self.ready)?;
        Ok(())
    }

    /// Closes the gaps where one has this digest, since a key that is there keeps its place.
    fn make_way(&mut self, digest: &Digest) -> Result<(), Memory>
        requires placed { Placed self.old }
        requires new { found digest.now (pool_in self.old) ≡ None }
        ensures way { OnOk result (lookup (bytes_eq digest.now) self.new.seats.entries ≡ None) }
        ensures placed { OnOk result (Placed self.new) }
        ensures pool { OnOk result (pool_in self.new ≡ pool_in self.old) }
        ensures right { (config : Config) → AllRight config self.old.seats.entries →
            OnOk result (AllRight config self.new.seats.entries) }
    {
        if !self.seats.contains_key(digest) {
            return Ok(());
        }
        self.close()?;
        Ok(())
    }

    /// Gives a session the last place.
    fn add(&mut self, digest: Digest, seat: Seat) -> Result<(), Memory>
        requires placed { Placed self.old }
        requires way { lookup (bytes_eq digest) self.old.seats.entries ≡ None }
        ensures placed { OnOk result (Placed self.new) }
        ensures seats { OnOk result (self.new.seats.entries
            ≡ self.old.seats.entries ++ (digest, Some seat) ∷ []) }
    {
        let place = Some(seat);
        let index = self.seats.len();
        mark(&mut self.waiting, index, waits(&place))?;
        mark(&mut self.ready, index, is_due(&place))?;
        self.seats.insert(digest, place)?;
        self.sessions += 1;
        Ok(())
    }

    /// Adds a session at the end, which concerns these shards.
    pub fn push(
        &mut self,
        config: &Config,
        digest: Digest,
        pooled: Pooled,
        shards: Vec<u16>,
    ) -> Result<(), Memory>
        requires sound { SoundSeats config.now self.old }
        requires new { found digest (pool_in self.old) ≡ None }
        requires formed { IsWellFormed config.now pooled.session }
        requires named { digest ≡ digest_of_session pooled.session }
        requires concerned { shards.items ≡ concerned_shards config.now pooled.session }
        requires fits { SessionFits pooled.session }
        ensures sound { OnOk result (SoundSeats config.now self.new) }
        ensures pool { OnOk result (pool_in self.new ≡ pool_in self.old ++ (digest, pooled) ∷ []) }
    {
        let seat = Seat::new(config, digest, pooled, shards);
        self.make_way(&digest)?;
        self.add(digest, seat)?;
        Ok(())
    }

    /// Leaves a gap in place of a session.
    fn leave(&mut self, digest: &Digest)
        requires { Placed self.old }
        ensures placed { Placed self.new }
        ensures pool { pool_in self.new ≡ without_session digest.now (pool_in self.old) }
        ensures right { (config : Config) → AllRight config self.old.seats.entries →
            AllRight config self.new.seats.entries }
    {
        let Some(index) = self.seats.get_index_of(digest) else {
            return;
        };
        let Some(place) = self.seats.get_index_mut(index) else {
            return;
        };
        if place.is_none() {
            return;
        }
        *place = None;
        self.sessions -= 1;
        self.waiting.remove(&index);
        self.ready.remove(&index);
    }

    /// Takes a session out. The others keep their order. Where the gaps outnumber the sessions
    /// they are closed.
    pub fn remove(&mut self, digest: &Digest) -> Result<(), Memory>
        requires { Placed self.old }
        ensures placed { OnOk result (Placed self.new) }
        ensures pool { OnOk result (pool_in self.new ≡ without_session digest.now (pool_in self.old)) }
        ensures right { (config : Config) → AllRight config self.old.seats.entries →
            OnOk result (AllRight config self.new.seats.entries) }
    {
        self.leave(digest);
        let gaps = self.seats.len().saturating_sub(self.sessions);
        if gaps <= self.sessions {
            return Ok(());
        }
        self.close()?;
        Ok(())
    }

    /// Takes a vote on a session.
    pub fn count(
        &mut self,
        config: &Config,
        digest: &Digest,
        ballot: Ballot,
    ) -> Result<Counted, Memory>
        requires { SoundSeats config.now self.old }
        ensures answer { IfOk result (λ answer.
            answer ≡ counted_in ballot.sender (found digest.now (pool_in self.old))) }
        ensures sound { OnOk result (SoundSeats config.now self.new) }
        ensures pool { OnOk result (pool_in self.new
            ≡ pool_changed digest.now (with_ballot ballot) (pool_in self.old)) }
    {
        let Some(index) = self.seats.get_index_of(digest) else {
            return Ok(Counted::NotPooled);
        };
        let Some(place) = self.seats.get_index_mut(index) else {
            return Ok(Counted::NotPooled);
        };
        let answer = take_vote(config, place, ballot)?;
        mark(&mut self.ready, index, is_due(place))?;
        Ok(answer)
    }

    /// Marks a session as locked.
    pub fn lock(&mut self, config: &Config, digest: &Digest) -> Result<(), Memory>
        requires { SoundSeats config.now self.old }
        ensures sound { OnOk result (SoundSeats config.now self.new) }
        ensures pool { OnOk result (pool_in self.new
            ≡ pool_changed digest.now as_locked (pool_in self.old)) }
    {
        let Some(index) = self.seats.get_index_of(digest) else {
            return Ok(());
        };
        let Some(place) = self.seats.get_index_mut(index) else {
            return Ok(());
        };
        lock(config, place);
        mark(&mut self.ready, index, is_due(place))?;
        mark(&mut self.waiting, index, false)?;
        Ok(())
    }

    /// The number of waiting sessions.
    pub fn waiting(&self) -> usize
        requires { Placed self.now }
        ensures { result ≡ waiting_count (pool_in self.now) }
    {
        self.waiting.len()
    }

    /// Copies of the locked sessions, in the order of the pool.
    pub fn locked(&self, alloc: Global) -> Result<Vec<Session>, Memory>
        requires { PoolFits (pool_in self.now) }
        ensures sessions { IfOk result (λ sessions. sessions.items ≡ locked_in (pool_in self.now)) }
        ensures fits { IfOk result (λ sessions. SessionsFit sessions.items) }
    {
        let mut sessions = Vec::new(alloc);
        for (_, place) in &self.seats {
            if let Some(seat) = place {
                if seat.pooled.locked {
                    let session = seat.pooled.session.copy(alloc)?;
                    sessions.push(session)?;
                }
            }
        }
        Ok(sessions)
    }

    /// Takes what is due on the sessions at these places into an entry, one after the other, until
    /// it has no room for one, and answers whether it had room for all.
    fn gather(
        &self,
        alloc: Global,
        places: &BTreeSet<usize>,
        batch: &mut Batch,
    ) -> Result<bool, Memory>
        ensures answer { let actions = actions_at self.now.seats.entries places.now.keys in
            IfOk result (λ all. all ≡ (filled batch.old actions).1) }
        ensures batch { let actions = actions_at self.now.seats.entries places.now.keys in
            OnOk result (batch.new ≡ (filled batch.old actions).0) }
    {
        for index in places {
            if let Some(seat) = self.seat_at(*index) {
                let action = action_on(alloc, seat)?;
                if !batch.take(action)? {
                    return Ok(false);
                }
            }
        }
        Ok(true)
    }

    /// The entry that is due: the decisions on locked sessions, in the order of the pool, and then
    /// votes on those that wait, as many of these as it has room for. No other session is looked at.
    pub fn due(&self, alloc: Global, config: &Config) -> Result<Option<Entry>, Memory>
        requires { SoundSeats config.now self.now }
        ensures entry { AtEverySetup config.now (λ setup.
            IfOk result (λ entry. entry ≡ due setup (pool_in self.now))) }
        ensures fits { IfOk result (DueFits (version_of config.now.version)) }
    {
        let mut batch = Batch::new(alloc, Version::of(config.version));
        if !self.gather(alloc, &self.ready, &mut batch)? {
            return Ok(batch.entry());
        }
        self.gather(alloc, &self.waiting, &mut batch)?;
        Ok(batch.entry())
    }
}
