//! What is done to several keys, one after the other.
ghost use Rattle.std.specs.Prelude.{◌≡◌, OnOk, map, option_map};
ghost use Rattle.cs_tx.specs.Votes.{vote_of};
ghost use Rattle.cs_table.specs.Pieces.{PiecesFit};
ghost use Rattle.cs_ledger.specs.Session.{has_key as is_named};
ghost use Rattle.cs_ledger.specs.Table.{all_ready, all_readable, vote_in};
ghost use Rattle.cs_table.specs.Seen.{seen, seen_piece, seen_place};
ghost use Rattle.cs_tx.specs.Sessions.{key_seen};
ghost use Rattle.cs_table.specs.Changes.{changed_each, changed_but, appeared_each, changed_record, Becomes};

use crate::change::Change;
use crate::piece::Piece;
use crate::table::Table;
use cs_base::{Key, Memory};
use cs_tx::{Digest, Encoded, Vote};
use std::alloc::Global;

/// Whether a key is that of one of the pieces.
pub(crate) fn has_key(pieces: &[Piece], key: &Key) -> bool
    ensures { result ≡ is_named (key_seen key.now) (map seen_piece pieces.now) }
{
    for piece in pieces {
        if *key == piece.key {
            return true;
        }
    }
    false
}

/// The vote on a session in a book.
pub(crate) fn vote_in_book(book: &[(Digest, Vote)], session: &Digest) -> Option<Vote>
    ensures { option_map vote_of result ≡ vote_in (map seen_place book.now) session.now }
{
    for place in book {
        if *session == place.0 {
            return Some(place.1);
        }
    }
    None
}

impl Table {
    /// Whether each key is active with exactly the carried object.
    pub(crate) fn all_active(&self, pieces: &[Piece]) -> bool
        requires { PiecesFit pieces.now }
        ensures { result ≡ all_ready (seen self.now) (map seen_piece pieces.now) }
    {
        for piece in pieces {
            if !self.has_active(piece) {
                return false;
            }
        }
        true
    }

    /// Whether under each key there is exactly the carried object, for one more session to read.
    pub(crate) fn all_readable(&self, pieces: &[Piece]) -> bool
        requires { PiecesFit pieces.now }
        ensures { result ≡ all_readable (seen self.now) (map seen_piece pieces.now) }
    {
        for piece in pieces {
            if !self.has_readable(piece) {
                return false;
            }
        }
        true
    }

    /// Changes the state of each key.
    pub(crate) fn change_each(
        &mut self,
        alloc: Global,
        pieces: &[Piece],
        change: Change,
    ) -> Result<(), Memory>
        ensures { OnOk result (Becomes self.old self.new
            (changed_each (changed_record change) (map seen_piece pieces.now) (seen self.old))) }
    {
        for piece in pieces {
            self.change(alloc, &piece.key, change)?;
        }
        Ok(())
    }

    /// Changes the state of each key that is read, but of those that are used up too.
    pub(crate) fn change_read(
        &mut self,
        alloc: Global,
        used: &[Piece],
        read: &[Piece],
        change: Change,
    ) -> Result<(), Memory>
        ensures { OnOk result (Becomes self.old self.new
            (changed_but (map seen_piece used.now) (changed_record change)
            (map seen_piece read.now) (seen self.old))) }
    {
        for piece in read {
            if !has_key(used, &piece.key) {
                self.change(alloc, &piece.key, change)?;
            }
        }
        Ok(())
    }

    /// Makes objects active under keys of which nothing is known, but under those that are read.
    pub(crate) fn appear_each(
        &mut self,
        alloc: Global,
        read: &[Piece],
        made: &[Piece],
    ) -> Result<(), Memory>
        requires { PiecesFit made.now }
        ensures { OnOk result (Becomes self.old self.new
            (appeared_each (map seen_piece read.now) (map seen_piece made.now) (seen self.old))) }
    {
        for piece in made {
            if !has_key(read, &piece.key) {
                self.appear(alloc, &piece.key, piece.object.copy(alloc)?)?;
            }
        }
        Ok(())
    }
}
