//! The calls on a session.
ghost use Rattle.std.specs.Prelude.{◌≡◌, ◌==◌, ◌+◌, ◌++◌, Bool, true, length, IsSome, is_some, IfOk, OnOk, map, option_map};
ghost use Rattle.cs_tx.specs.Votes.{vote_of};
ghost use Rattle.cs_tx_types.specs.declared.transaction.Tx.{Tx};
ghost use Rattle.cs_tx_types.specs.Session.{SessionFits};
ghost use Rattle.cs_tx.specs.Digest.{digest_of_session};
ghost use Rattle.cs_ledger.specs.Table.{Voted};
ghost use Rattle.cs_ledger.specs.Session.{first_key as first_of};
ghost use Rattle.cs_table.specs.Seen.{seen, seen_piece};
ghost use Rattle.cs_table.specs.Pieces.{used_in, read_in, PiecesFit};
ghost use Rattle.cs_tx.specs.Sessions.{ledger_session, dummy_name, key_seen};
ghost use Rattle.cs_table.specs.Effects.{ComesTo, effect_of};
ghost use Rattle.std.specs.List.{list_any};
ghost use Rattle.cs_table.specs.Changes.{Becomes, with_next};
ghost use Rattle.cs_table.specs.Calls.{accepted_with, makes_dummy as makes_new, new_in, anchor_in, prepare_outcome, decide_outcome, is_locked_in, standing_in, recorded_in};
ghost use Rattle.cs_table.specs.declared.standing.Standing.{Standing};

use crate::piece::Piece;
use crate::pieces::{dummy_object, made_pieces, read_pieces, used_pieces};
use crate::standing::{Preparation, Standing};
use crate::table::Table;
use cs_base::{Key, Memory};
use cs_tx::{Digest, Session, Vote};
use cs_tx_types::Effect;
use std::alloc::Global;

/// What a session has in the shard: what it uses up, and what it only reads.
#[derive(Drop)]
struct Uses {
    used: Vec<Piece>,
    read: Vec<Piece>,
}

fn first_key(pieces: &[Piece]) -> Option<Key>
    ensures { option_map key_seen result ≡ first_of (map seen_piece pieces.now) }
{
    pieces.first().map(|piece| piece.key)
}

/// Whether one of the dummies is of the shard.
fn has_dummy(shard: u16, dummies: &[(u16, u64)]) -> bool
    ensures { result ≡ list_any (λ dummy. dummy.0 == shard) dummies.now }
{
    dummies.iter().any(|dummy| dummy.0 == shard)
}

impl Table {
    fn uses(&self, alloc: Global, session: &Session) -> Result<Uses, Memory>
        requires { SessionFits session.now }
        ensures used { IfOk result (λ uses.
            uses.used.items ≡ used_in self.now.shards self.now.shard session.now) }
        ensures read { IfOk result (λ uses.
            uses.read.items ≡ read_in self.now.shards self.now.shard session.now) }
        ensures used_fit { IfOk result (λ uses. PiecesFit uses.used.items) }
        ensures read_fit { IfOk result (λ uses. PiecesFit uses.read.items) }
    {
        let used = used_pieces(alloc, self.config(), self.shard(), session)?;
        let read = read_pieces(alloc, self.config(), self.shard(), session)?;
        Ok(Uses { used, read })
    }

    /// Whether a session has a key here, by which it can be held. A well formed one that concerns
    /// the shard has.
    pub fn has_anchor(&self, alloc: Global, session: &Session) -> Result<bool, Memory>
        requires { SessionFits session.now }
        ensures { IfOk result (λ has.
            has ≡ is_some (anchor_in self.now (ledger_session (λ tx. true) session.now))) }
    {
        let uses = self.uses(alloc, session)?;
        let anchor = first_key(uses.used.as_slice());
        Ok(anchor.is_some())
    }

    /// Votes on a session, whose digest is given. Where the vote is commit what it uses up is locked
    /// by it, and it is a reader of what it only reads; a new abort is noted in the book of its
    /// anchor, where there is room. The session is well formed, and concerns the shard.
    pub fn prepare(
        &mut self,
        alloc: Global,
        session: &Session,
        digest: &Digest,
    ) -> Result<Preparation, Memory>
        requires fits { SessionFits session.now }
        requires named { digest.now ≡ digest_of_session session.now }
        requires anchored { IsSome (anchor_in self.old (ledger_session (λ tx. true) session.now)) }
        ensures vote { (approves : Tx → Bool) → IfOk result (λ answer.
            ComesTo (prepare_outcome self.old (ledger_session approves session.now))
            self.old self.new (Voted (vote_of answer.vote))) }
        ensures locks { (approves : Tx → Bool) → IfOk result (λ answer.
            answer.locked ≡ is_locked_in self.new (ledger_session approves session.now)) }
    {
        let uses = self.uses(alloc, session)?;
        let used = uses.used.as_slice();
        let read = uses.read.as_slice();
        match first_key(used) {
            Some(anchor) => {
                let vote = self.vote_on(alloc, digest, &anchor, used, read)?;
                let locked = self.is_locked(digest, &anchor);
                Ok(Preparation { vote, locked })
            }
            None => Ok(Preparation {
                vote: Vote::Abort,
                locked: false,
            }),
        }
    }

    /// Carries the decision on a session out, whose digest is given, where it holds its lock. The
    /// session is well formed, and concerns the shard.
    pub fn decide(
        &mut self,
        alloc: Global,
        session: &Session,
        digest: &Digest,
        vote: Vote,
    ) -> Result<Effect, Memory>
        requires fits { SessionFits session.now }
        requires named { digest.now ≡ digest_of_session session.now }
        requires anchored { IsSome (anchor_in self.old (ledger_session (λ tx. true) session.now)) }
        ensures { (approves : Tx → Bool) → IfOk result (λ effect.
            ComesTo (decide_outcome self.old (ledger_session approves session.now) (vote_of vote))
            self.old self.new (effect_of effect)) }
    {
        let uses = self.uses(alloc, session)?;
        let used = uses.used.as_slice();
        let read = uses.read.as_slice();
        let anchor = match first_key(used) {
            Some(anchor) => anchor,
            None => return Ok(Effect::Skipped),
        };
        if !self.is_locked(digest, &anchor) {
            return Ok(Effect::Skipped);
        }
        match vote {
            Vote::Commit => {
                self.accept(alloc, session, digest, used, read)?;
                Ok(Effect::Accepted)
            }
            Vote::Abort => {
                self.undo(alloc, digest, &anchor, used, read)?;
                Ok(Effect::Aborted)
            }
        }
    }

    /// Carries an accepted session out, and makes a new dummy where one was used up.
    fn accept(
        &mut self,
        alloc: Global,
        session: &Session,
        digest: &Digest,
        used: &[Piece],
        read: &[Piece],
    ) -> Result<(), Memory>
        requires fits { SessionFits session.now }
        ensures { (approves : Tx → Bool) → OnOk result (Becomes self.old self.new
            (accepted_with self.old (ledger_session approves session.now) digest.now
            (map seen_piece used.now) (map seen_piece read.now))) }
    {
        let mut made = made_pieces(alloc, self.config(), self.shard(), session)?;
        self.add_new_dummy(alloc, session.dummies.as_slice(), &mut made)?;
        self.carry_out(alloc, digest, used, read, made.as_slice())?;
        Ok(())
    }

    /// Whether a dummy is used up, and there is a serial for a new one.
    fn makes_dummy(&self, dummies: &[(u16, u64)]) -> bool
        ensures { result ≡ makes_new self.now dummies.now }
    {
        has_dummy(self.shard(), dummies) && self.next() < u64::MAX
    }

    fn add_new_dummy(
        &mut self,
        alloc: Global,
        dummies: &[(u16, u64)],
        made: &mut Vec<Piece>,
    ) -> Result<(), Memory>
        requires { PiecesFit made.old.items }
        ensures made { OnOk result (map seen_piece made.new.items
            ≡ map seen_piece made.old.items ++ new_in self.old (map dummy_name dummies.now)) }
        ensures fit { OnOk result (PiecesFit made.new.items) }
        ensures table { OnOk result (Becomes self.old self.new
            (with_next (self.old.next + length (new_in self.old (map dummy_name dummies.now)))
            (seen self.old))) }
    {
        if !self.makes_dummy(dummies) {
            return Ok(());
        }
        let shard = self.shard();
        let serial = self.next_serial();
        made.push(Piece {
            key: Key::Dummy(shard, serial),
            object: dummy_object(alloc)?,
        })?;
        Ok(())
    }

    /// Whether a session, whose digest is given, was accepted or aborted here.
    pub fn standing(
        &self,
        alloc: Global,
        session: &Session,
        digest: &Digest,
    ) -> Result<Standing, Memory>
        requires fits { SessionFits session.now }
        requires named { digest.now ≡ digest_of_session session.now }
        ensures { (approves : Tx → Bool) → IfOk result (λ standing.
            standing ≡ standing_in self.now (ledger_session approves session.now)) }
    {
        let uses = self.uses(alloc, session)?;
        match first_key(uses.used.as_slice()) {
            Some(anchor) => Ok(self.standing_under(digest, &anchor)),
            None => Ok(Standing::Open),
        }
    }

    /// The vote that is on record on a session, whose digest is given, if there is one.
    pub fn recorded(
        &self,
        alloc: Global,
        session: &Session,
        digest: &Digest,
    ) -> Result<Option<Vote>, Memory>
        requires fits { SessionFits session.now }
        requires named { digest.now ≡ digest_of_session session.now }
        ensures { (approves : Tx → Bool) → IfOk result (λ vote.
            option_map vote_of vote ≡ recorded_in self.now (ledger_session approves session.now)) }
    {
        let uses = self.uses(alloc, session)?;
        match first_key(uses.used.as_slice()) {
            Some(anchor) => Ok(self.recorded_under(digest, &anchor)),
            None => Ok(None),
        }
    }
}
