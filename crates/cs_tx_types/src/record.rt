//! Records.
use crate::book::{book_fits, read_book, room_book, skip_book, write_book};
use crate::state::State;
use crate::vote::Vote;
use cs_base::{Cursor, Memory, Sequence, Writer};
use cs_tx_value::{Digest, Encoded, FormError, copy_each};
use std::alloc::Global;

/// What is kept of a key: its state, and its book of sessions' digests and the votes on them. One
/// that fits has at most 1,025 places in its book.
#[derive(Drop)]
pub struct Record {
    pub state: State,
    pub book: Sequence<(Digest, Vote)>,
}

impl Encoded for Record {
    ghost use Rattle.cs_tx_value.specs.laws.Limits.{unlimited};
    ghost use Rattle.cs_tx_types.specs.Record.{record_encoding, RecordFits, record_at};
    ghost use Rattle.cs_tx_types.specs.laws.Record.{record_form};

    ghost encoding = { record_encoding };

    ghost Fits = { RecordFits };

    ghost found_at = { record_at };

    ghost LIMIT = { 18446744073709551615 };

    const LIMIT: usize = usize::MAX;

    #[tactic(auto, unfolding(crate::specs::Record::record_at, cs_base::specs::Fields::pair_at))]
    fn read(alloc: Global, cursor: &mut Cursor<'_>) -> Result<Record, FormError> {
        let state = State::read(alloc, cursor)?;
        let book = read_book(alloc, cursor)?;
        Ok(Record { state, book })
    }

    #[tactic(auto, unfolding(crate::specs::Record::record_at, cs_base::specs::Fields::pair_at))]
    fn skip(cursor: &mut Cursor<'_>) -> Result<(), FormError> {
        State::skip(cursor)?;
        skip_book(cursor)
    }

    fn encode(&self, out: &mut Writer) -> Result<(), Memory> {
        self.state.encode(out)?;
        write_book(&self.book, out)
    }

    fn fits(&self) -> bool {
        self.state.fits() && book_fits(&self.book)
    }

    fn room(&self, room: usize) -> Option<usize> {
        let room = self.state.room(room)?;
        room_book(&self.book, room)
    }

    fn copy(&self, alloc: Global) -> Result<Record, Memory> {
        Ok(Record {
            state: self.state.copy(alloc)?,
            book: copy_each(alloc, &self.book)?,
        })
    }

    ghost form = { record_form };

    ghost short = { λ value fits lt. unlimited _ lt };
}
