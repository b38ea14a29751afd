//! Voting on a session, and carrying decisions out, over the keys that it has in the shard.
ghost use Rattle.std.specs.Prelude.{◌≡◌, OnOk, IfOk, map, option_map};
ghost use Rattle.cs_tx.specs.Votes.{vote_of};
ghost use Rattle.cs_ledger.specs.Table.{prepare, with_locks, with_aborted, is_locked_by, has_room as is_fresh, has_place, is_ready as is_all_ready, Voted};
ghost use Rattle.cs_table.specs.Seen.{seen, shown_at, seen_piece};
ghost use Rattle.cs_tx.specs.Sessions.{key_seen};
ghost use Rattle.cs_table.specs.Changes.{Becomes};
ghost use Rattle.cs_table.specs.Effects.{ComesTo, settled_vote, accepted};
ghost use Rattle.cs_table.specs.Pieces.{PiecesFit};
ghost use Rattle.cs_table.specs.Calls.{standing_of};
ghost use Rattle.cs_ledger.specs.Standing.{recorded};

use crate::change::Change;
use crate::piece::Piece;
use crate::standing::Standing;
use crate::table::Table;
use crate::verdict;
use cs_base::{Key, MOST_PLACES, Memory};
use cs_tx::{Digest, Vote};
use std::alloc::Global;

impl Table {
    /// The vote on a session with this anchor, if it is settled.
    pub(crate) fn settled(&self, session: &Digest, anchor: &Key) -> Option<Vote>
        ensures { option_map vote_of result
            ≡ settled_vote (shown_at self.now anchor.now) session.now }
    {
        match self.record(anchor) {
            Some(row) => verdict::settled(row, session),
            None => None,
        }
    }

    /// Whether the session has this anchor locked.
    pub(crate) fn is_locked(&self, session: &Digest, anchor: &Key) -> bool
        ensures { result ≡ is_locked_by session.now (shown_at self.now anchor.now).state }
    {
        match self.record(anchor) {
            Some(row) => verdict::is_locked_by(row, session),
            None => false,
        }
    }

    pub(crate) fn standing_under(&self, session: &Digest, anchor: &Key) -> Standing
        ensures { result ≡ standing_of (shown_at self.now anchor.now) session.now }
    {
        match self.record(anchor) {
            Some(row) => verdict::standing(row, session),
            None => Standing::Open,
        }
    }

    pub(crate) fn recorded_under(&self, session: &Digest, anchor: &Key) -> Option<Vote>
        ensures { option_map vote_of result ≡ recorded (shown_at self.now anchor.now) session.now }
    {
        match self.record(anchor) {
            Some(row) => verdict::recorded(row, session),
            None => None,
        }
    }

    fn has_room(&self, anchor: &Key) -> bool
        ensures { result ≡ is_fresh (shown_at self.now anchor.now).book }
    {
        match self.record(anchor) {
            Some(row) => verdict::has_room(row),
            None => true,
        }
    }

    /// Whether a vote that is carried out still has a place in the book.
    pub(crate) fn has_place(&self, anchor: &Key) -> bool
        ensures { result ≡ has_place (shown_at self.now anchor.now).book }
    {
        match self.record(anchor) {
            Some(row) => row.book.len() < usize::from(MOST_PLACES),
            None => true,
        }
    }

    fn is_ready(&self, used: &[Piece], read: &[Piece]) -> bool
        requires used { PiecesFit used.now }
        requires read { PiecesFit read.now }
        ensures { result
            ≡ is_all_ready (seen self.now) (map seen_piece used.now) (map seen_piece read.now) }
    {
        self.all_active(used) && self.all_readable(read)
    }

    fn lock(
        &mut self,
        alloc: Global,
        session: &Digest,
        used: &[Piece],
        read: &[Piece],
    ) -> Result<(), Memory>
        ensures { OnOk result (Becomes self.old self.new
            (with_locks (seen self.old) session.now
            (map seen_piece used.now) (map seen_piece read.now))) }
    {
        self.change_each(alloc, used, Change::Lock(*session))?;
        self.change_read(alloc, used, read, Change::Join(*session))?;
        Ok(())
    }

    /// Votes on a session: it uses up the first keys, and reads the others.
    pub(crate) fn vote_on(
        &mut self,
        alloc: Global,
        session: &Digest,
        anchor: &Key,
        used: &[Piece],
        read: &[Piece],
    ) -> Result<Vote, Memory>
        requires used { PiecesFit used.now }
        requires read { PiecesFit read.now }
        ensures { IfOk result (λ vote. ComesTo
            (prepare (seen self.old) session.now (key_seen anchor.now)
            (map seen_piece used.now) (map seen_piece read.now))
            self.old self.new (Voted (vote_of vote))) }
    {
        if let Some(vote) = self.settled(session, anchor) {
            return Ok(vote);
        }
        if !self.has_room(anchor) {
            return Ok(Vote::Abort);
        }
        if self.is_ready(used, read) {
            self.lock(alloc, session, used, read)?;
            return Ok(Vote::Commit);
        }
        self.note(alloc, anchor, *session, Vote::Abort)?;
        Ok(Vote::Abort)
    }

    /// Frees what a session locked, lets it leave the readers, and notes its vote.
    pub(crate) fn undo(
        &mut self,
        alloc: Global,
        session: &Digest,
        anchor: &Key,
        used: &[Piece],
        read: &[Piece],
    ) -> Result<(), Memory>
        ensures { OnOk result (Becomes self.old self.new
            (with_aborted (seen self.old) session.now (key_seen anchor.now)
            (map seen_piece used.now) (map seen_piece read.now))) }
    {
        let has_place = self.has_place(anchor);
        self.change_each(alloc, used, Change::Release)?;
        self.change_read(alloc, used, read, Change::Leave(*session))?;
        if has_place {
            self.note(alloc, anchor, *session, Vote::Commit)?;
        }
        Ok(())
    }

    /// Uses up the first keys of a session, lets it leave the readers of the others, and brings
    /// objects into being.
    pub(crate) fn carry_out(
        &mut self,
        alloc: Global,
        session: &Digest,
        used: &[Piece],
        read: &[Piece],
        made: &[Piece],
    ) -> Result<(), Memory>
        requires { PiecesFit made.now }
        ensures { OnOk result (Becomes self.old self.new
            (accepted session.now (map seen_piece used.now) (map seen_piece read.now)
            (map seen_piece made.now) (seen self.old).next (seen self.old))) }
    {
        self.change_read(alloc, used, read, Change::Leave(*session))?;
        self.change_each(alloc, used, Change::UseUp(*session))?;
        self.appear_each(alloc, read, made)?;
        Ok(())
    }
}
