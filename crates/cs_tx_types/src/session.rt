//! Sessions.
use crate::limits::MOST_SESSION_DUMMIES;
use crate::transaction::Tx;
use cs_base::{Cursor, MOST_SESSION, Memory, Sequence, Writer};
use cs_tx_value::{
    Encoded, FormError, copy_each, few_fit, read_counted, room_counted, skip_counted, write_counted,
};
use std::alloc::Global;

/// A transaction that is tried under a number, with a dummy (shard, serial) for each concerned
/// shard in which it has no input. One that fits has at most 15 dummies.
#[derive(Drop)]
pub struct Session {
    pub tx: Tx,
    pub number: u64,
    pub dummies: Sequence<(u16, u64)>,
}

impl Encoded for Session {
    ghost use Rattle.cs_tx_types.specs.Session.{session_encoding, SessionFits};
    ghost use Rattle.cs_tx_types.specs.Reading.{session_at};
    ghost use Rattle.cs_base.specs.declared.limits.TheConstants.{MOST_SESSION};
    ghost use Rattle.cs_tx_types.specs.laws.Session.{session_form, session_short};

    ghost encoding = { session_encoding };

    ghost Fits = { SessionFits };

    ghost found_at = { session_at };

    ghost LIMIT = { MOST_SESSION };

    const LIMIT: usize = MOST_SESSION;

    #[tactic(auto, unfolding(crate::specs::Reading::session_at, cs_base::specs::Fields::pair_at))]
    fn read(alloc: Global, cursor: &mut Cursor<'_>) -> Result<Session, FormError> {
        let tx = Tx::read(alloc, cursor)?;
        let number = cursor.u64()?;
        let dummies = read_counted(alloc, cursor, MOST_SESSION_DUMMIES)?;
        Ok(Session {
            tx,
            number,
            dummies,
        })
    }

    #[tactic(auto, unfolding(crate::specs::Reading::session_at, cs_base::specs::Fields::pair_at))]
    fn skip(cursor: &mut Cursor<'_>) -> Result<(), FormError> {
        Tx::skip(cursor)?;
        cursor.u64()?;
        skip_counted::<(u16, u64)>(cursor, MOST_SESSION_DUMMIES)
    }

    fn encode(&self, out: &mut Writer) -> Result<(), Memory> {
        self.tx.encode(out)?;
        self.number.encode(out)?;
        write_counted(&self.dummies, out)
    }

    fn fits(&self) -> bool {
        if !self.tx.fits() || !self.number.fits() {
            return false;
        }
        few_fit(&self.dummies, MOST_SESSION_DUMMIES)
    }

    fn room(&self, room: usize) -> Option<usize> {
        let room = self.tx.room(room)?;
        let room = self.number.room(room)?;
        room_counted(&self.dummies, room)
    }

    fn copy(&self, alloc: Global) -> Result<Session, Memory> {
        Ok(Session {
            tx: self.tx.copy(alloc)?,
            number: self.number,
            dummies: copy_each(alloc, &self.dummies)?,
        })
    }

    ghost form = { session_form };

    ghost short = { λ session fits lt. session_short session fits };
}
