//! The encodings of pairs.
ghost use Rattle.std.specs.Prelude.{◌≡◌};

use crate::encoded::Encoded;
use crate::form::FormError;
use cs_base::{Cursor, Memory, Writer};
use std::alloc::Global;

impl<A: Encoded, B: Encoded> Encoded for (A, B) {
    ghost use Rattle.cs_tx_value.specs.laws.Limits.{unlimited};
    ghost use Rattle.std.specs.Prelude.{◌++◌};
    ghost use Rattle.cs_base.specs.Fields.{pair_at};
    ghost use Rattle.cs_base.proofs.Forms.{pair_form};

    ghost encoding = { λ p. A.encoding p.0 ++ B.encoding p.1 };

    ghost Fits = { λ p. A.Fits p.0 × B.Fits p.1 };

    ghost found_at = { pair_at A.found_at B.found_at };

    ghost LIMIT = { 18446744073709551615 };

    const LIMIT: usize = usize::MAX;

    #[tactic(auto, unfolding(cs_base::specs::Fields::pair_at))]
    fn read(alloc: Global, cursor: &mut Cursor<'_>) -> Result<(A, B), FormError> {
        let first = A::read(alloc, cursor)?;
        let second = B::read(alloc, cursor)?;
        Ok((first, second))
    }

    #[tactic(auto, unfolding(cs_base::specs::Fields::pair_at))]
    fn skip(cursor: &mut Cursor<'_>) -> Result<(), FormError> {
        A::skip(cursor)?;
        B::skip(cursor)
    }

    fn encode(&self, out: &mut Writer) -> Result<(), Memory> {
        self.0.encode(out)?;
        self.1.encode(out)
    }

    fn fits(&self) -> bool {
        self.0.fits() && self.1.fits()
    }

    fn room(&self, room: usize) -> Option<usize> {
        let room = self.0.room(room)?;
        self.1.room(room)
    }

    fn copy(&self, alloc: Global) -> Result<(A, B), Memory> {
        Ok((self.0.copy(alloc)?, self.1.copy(alloc)?))
    }

    ghost form = { pair_form A.encoding A.Fits A.found_at A.form
        B.encoding B.Fits B.found_at B.form };

    ghost short = { λ value fits lt. unlimited _ lt };
}
