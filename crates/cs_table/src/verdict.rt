//! What the record of its anchor says of a session.
ghost use Rattle.std.specs.Prelude.{◌≡◌, option_map, None, if◌then◌else◌};
ghost use Rattle.cs_tx.specs.Votes.{vote_of};
ghost use Rattle.cs_ledger.specs.Standing.{recorded, is_inactive_by};
ghost use Rattle.cs_table.specs.Calls.{standing_of, is_over};
ghost use Rattle.cs_table.specs.declared.standing.Standing.TheVariants.{Aborted, Open};
ghost use Rattle.cs_ledger.specs.Table.{is_held_by, is_inactive, is_locked_by, has_room};
ghost use Rattle.cs_table.specs.Seen.{seen_record};
ghost use Rattle.cs_table.specs.Effects.{settled_vote, or_lost};

use crate::several::vote_in_book;
use crate::standing::Standing;
use cs_base::BOOK_PLACES;
use cs_tx::{Digest, State, Vote};
use cs_tx_types::Record;

/// Whether the session holds the lock.
pub(crate) fn is_locked_by(row: &Record, session: &Digest) -> bool
    ensures { result ≡ is_locked_by session.now (seen_record row.now).state }
{
    match &row.state {
        State::Locked(_, by) => *session == *by,
        State::Unknown | State::Active(_) | State::Inactive(_) | State::Shared(_, _) => false,
    }
}

/// Whether the book has room for a vote.
pub(crate) fn has_room(row: &Record) -> bool
    ensures { result ≡ has_room (seen_record row.now).book }
{
    row.book.len() < usize::from(BOOK_PLACES)
}

/// The vote on a session of which this is the anchor's record, if it is settled.
pub(crate) fn settled(row: &Record, session: &Digest) -> Option<Vote>
    ensures { option_map vote_of result ≡ settled_vote (seen_record row.now) session.now }
{
    if is_held_by(row, session) {
        return Some(Vote::Commit);
    }
    match vote_in_book(row.book.as_slice(), session) {
        Some(vote) => Some(vote),
        None => lost(row),
    }
}

/// The standing of the session of which this is the anchor's record.
pub(crate) fn standing(row: &Record, session: &Digest) -> Standing
    ensures { result ≡ standing_of (seen_record row.now) session.now }
{
    match &row.state {
        State::Inactive(by) => {
            if *session == *by {
                Standing::Accepted
            } else {
                Standing::Aborted
            }
        }
        State::Unknown | State::Active(_) | State::Locked(_, _) | State::Shared(_, _) => {
            open_or_aborted(row, session)
        }
    }
}

fn open_or_aborted(row: &Record, session: &Digest) -> Standing
    ensures { result ≡ (if is_over (seen_record row.now) session.now then Aborted else Open) }
{
    if vote_in_book(row.book.as_slice(), session).is_some() {
        return Standing::Aborted;
    }
    if !has_room(row) && !is_locked_by(row, session) {
        return Standing::Aborted;
    }
    Standing::Open
}

/// The vote on record on the session of which this is the anchor's record.
pub(crate) fn recorded(row: &Record, session: &Digest) -> Option<Vote>
    ensures { option_map vote_of result ≡ recorded (seen_record row.now) session.now }
{
    if is_used_by(row, session) {
        return Some(Vote::Commit);
    }
    vote_in_book(row.book.as_slice(), session)
}

fn is_used_by(row: &Record, session: &Digest) -> bool
    ensures { result ≡ is_inactive_by session.now (seen_record row.now).state }
{
    match &row.state {
        State::Inactive(by) => *session == *by,
        State::Unknown | State::Active(_) | State::Locked(_, _) | State::Shared(_, _) => false,
    }
}

fn is_held_by(row: &Record, session: &Digest) -> bool
    ensures { result ≡ is_held_by session.now (seen_record row.now).state }
{
    match &row.state {
        State::Locked(_, by) | State::Inactive(by) => *session == *by,
        State::Unknown | State::Active(_) | State::Shared(_, _) => false,
    }
}

fn lost(row: &Record) -> Option<Vote>
    ensures { option_map vote_of result ≡ or_lost (is_inactive (seen_record row.now).state) None }
{
    match &row.state {
        State::Inactive(_) => Some(Vote::Abort),
        State::Unknown | State::Active(_) | State::Locked(_, _) | State::Shared(_, _) => None,
    }
}
