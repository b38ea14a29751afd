//! Digests.
ghost use Rattle.std.specs.Prelude.{◌≡◌};

use crate::encoded::Encoded;
use crate::form::FormError;
use cs_base::{Cursor, Memory, Writer};
use std::alloc::Global;

/// SHA-256 of something.
pub type Digest = [u8; 32];

impl Encoded for [u8; 32] {
    ghost use Rattle.cs_tx_value.specs.laws.Limits.{unlimited};
    ghost use Rattle.std.specs.Prelude.{◌≡◌, length};
    ghost use Rattle.cs_base.specs.Fields.{IsBytes, bytes_at};
    ghost use Rattle.cs_base.proofs.Forms.{bytes_form};

    ghost encoding = { λ bytes. bytes };

    ghost Fits = { λ bytes. (length bytes ≡ 32) × IsBytes bytes };

    ghost found_at = { bytes_at 32 };

    ghost LIMIT = { 18446744073709551615 };

    const LIMIT: usize = usize::MAX;

    fn read(_alloc: Global, cursor: &mut Cursor<'_>) -> Result<[u8; 32], FormError> {
        let bytes = cursor.take(32)?;
        let mut digest = [0; 32];
        digest.copy_from_slice(bytes);
        Ok(digest)
    }

    fn skip(cursor: &mut Cursor<'_>) -> Result<(), FormError> {
        cursor.take(32)?;
        Ok(())
    }

    fn encode(&self, out: &mut Writer) -> Result<(), Memory> {
        out.take(self.as_slice())
    }

    fn fits(&self) -> bool {
        self.as_slice().len() == 32
    }

    fn room(&self, room: usize) -> Option<usize> {
        room.checked_sub(self.as_slice().len())
    }

    fn copy(&self, _alloc: Global) -> Result<[u8; 32], Memory> {
        Ok(*self)
    }

    ghost form = { bytes_form 32 };

    ghost short = { λ value fits lt. unlimited _ lt };
}
