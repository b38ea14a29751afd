//! Transactions.
use crate::limits::MOST_TRACES;
use crate::trace::Trace;
use cs_base::{Cursor, MOST_TX, Memory, Sequence, Writer};
use cs_tx_value::{
    Encoded, FormError, copy_each, few_fit, read_some, room_counted, skip_some, write_counted,
};
use std::alloc::Global;

/// A transaction. One that fits has 1 to 16 traces, and an encoding of at most 8,192 bytes.
#[derive(Drop)]
pub struct Tx {
    pub traces: Sequence<Trace>,
}

impl Encoded for Tx {
    ghost use Rattle.cs_tx_types.specs.Transaction.{tx_encoding, TxFits};
    ghost use Rattle.cs_tx_types.specs.Reading.{tx_at};
    ghost use Rattle.cs_base.specs.declared.limits.TheConstants.{MOST_TX};
    ghost use Rattle.cs_tx_types.specs.laws.Session.{tx_form};

    ghost encoding = { tx_encoding };

    ghost Fits = { TxFits };

    ghost found_at = { tx_at };

    ghost LIMIT = { MOST_TX };

    const LIMIT: usize = MOST_TX;

    #[tactic(auto, unfolding(crate::specs::Reading::tx_at, cs_base::specs::Fields::within_at))]
    fn read(alloc: Global, cursor: &mut Cursor<'_>) -> Result<Tx, FormError> {
        let before = cursor.len();
        let traces = read_some(alloc, cursor, MOST_TRACES)?;
        if before.saturating_sub(cursor.len()) > MOST_TX {
            return Err(FormError::BadForm);
        }
        Ok(Tx { traces })
    }

    #[tactic(auto, unfolding(crate::specs::Reading::tx_at, cs_base::specs::Fields::within_at))]
    fn skip(cursor: &mut Cursor<'_>) -> Result<(), FormError> {
        let before = cursor.len();
        skip_some::<Trace>(cursor, MOST_TRACES)?;
        if before.saturating_sub(cursor.len()) > MOST_TX {
            return Err(FormError::BadForm);
        }
        Ok(())
    }

    fn encode(&self, out: &mut Writer) -> Result<(), Memory> {
        write_counted(&self.traces, out)
    }

    fn fits(&self) -> bool {
        if self.traces.is_empty() || !few_fit(&self.traces, MOST_TRACES) {
            return false;
        }
        self.room(MOST_TX).is_some()
    }

    fn room(&self, room: usize) -> Option<usize> {
        room_counted(&self.traces, room)
    }

    fn copy(&self, alloc: Global) -> Result<Tx, Memory> {
        Ok(Tx {
            traces: copy_each(alloc, &self.traces)?,
        })
    }

    ghost form = { tx_form };

    ghost short = { λ tx fits lt. fits.small };
}
