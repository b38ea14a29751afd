//! The books of records, behind a count in two bytes.
ghost use Rattle.std.specs.Prelude.{◌≡◌, ◌++◌, ◌↔◌, IsTrue, OnOk, OnErr};
ghost use Rattle.cs_base.specs.declared.limits.TheConstants.{MOST_PLACES};
ghost use Rattle.cs_tx_value.specs.Encoding.{AtMost};
ghost use Rattle.cs_tx_value.specs.Reading.{ReadsValue, Passes, Begins, LeavesRoom};
ghost use Rattle.cs_tx_types.specs.Record.{PlaceFits, book_encoding, book_at};

use crate::vote::Vote;
use cs_base::{Cursor, MOST_PLACES, Memory, Sequence, Writer};
use cs_tx_value::{Digest, FormError, each_fits, read_many, room_each, skip_many, write_each};
use std::alloc::Global;

/// A book of at most `MOST_PLACES` places.
#[tactic(auto, unfolding(cs_base::specs::Fields::upto_at))]
pub fn read_book(
    alloc: Global,
    cursor: &mut Cursor<'_>,
) -> Result<Sequence<(Digest, Vote)>, FormError>
    ensures { ReadsValue result cursor.new (book_at cursor.old) }
{
    let count = cursor.u16()?;
    if count > MOST_PLACES {
        return Err(FormError::BadForm);
    }
    read_many(alloc, cursor, count)
}

/// Passes over a book of at most `MOST_PLACES` places.
#[tactic(auto, unfolding(cs_base::specs::Fields::upto_at))]
pub fn skip_book(cursor: &mut Cursor<'_>) -> Result<(), FormError>
    ensures { Passes result cursor.new (book_at cursor.old) }
{
    let count = cursor.u16()?;
    if count > MOST_PLACES {
        return Err(FormError::BadForm);
    }
    skip_many::<(Digest, Vote)>(cursor, count)
}

/// Appends a book.
pub fn write_book(book: &Sequence<(Digest, Vote)>, out: &mut Writer) -> Result<(), Memory>
    requires { AtMost MOST_PLACES PlaceFits book.now }
    ensures ok { OnOk result (out.new ≡ out.old ++ book_encoding book.now) }
    ensures err { OnErr result (Begins out.new out.old) }
{
    out.u16(book.len() as u16)?;
    write_each(book.as_slice(), out)
}

/// Whether a book has at most `MOST_PLACES` places.
pub fn book_fits(book: &Sequence<(Digest, Vote)>) -> bool
    ensures { IsTrue result ↔ AtMost MOST_PLACES PlaceFits book.now }
{
    if book.len() > MOST_PLACES as usize {
        return false;
    }
    each_fits(book.as_slice())
}

/// What is left of so much room behind a book.
pub fn room_book(book: &Sequence<(Digest, Vote)>, room: usize) -> Option<usize>
    ensures { LeavesRoom (book_encoding book.now) room result }
{
    let room = room.checked_sub(2)?;
    room_each(book.as_slice(), room)
}
