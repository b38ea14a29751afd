//! The encodings of numbers.
ghost use Rattle.std.specs.Prelude.{◌≡◌};

use crate::encoded::Encoded;
use crate::form::FormError;
use cs_base::{Cursor, Memory, Writer};
use std::alloc::Global;

impl Encoded for u8 {
    ghost use Rattle.cs_tx_value.specs.laws.Limits.{unlimited};
    ghost use Rattle.std.specs.Prelude.{◌<◌, [], ◌∷◌};
    ghost use Rattle.std.specs.Int.{w8};
    ghost use Rattle.cs_base.specs.Fields.{number_at};
    ghost use Rattle.cs_base.proofs.Forms.{byte_form};

    ghost encoding = { λ n. n ∷ [] };

    ghost Fits = { λ n. n < 256 };

    ghost found_at = { number_at w8 };

    ghost LIMIT = { 18446744073709551615 };

    const LIMIT: usize = usize::MAX;

    fn read(_alloc: Global, cursor: &mut Cursor<'_>) -> Result<u8, FormError> {
        Ok(cursor.u8()?)
    }

    fn skip(cursor: &mut Cursor<'_>) -> Result<(), FormError> {
        cursor.u8()?;
        Ok(())
    }

    fn encode(&self, out: &mut Writer) -> Result<(), Memory> {
        out.u8(*self)
    }

    fn fits(&self) -> bool {
        let _number = *self;
        true
    }

    fn room(&self, room: usize) -> Option<usize> {
        room.checked_sub(1)
    }

    fn copy(&self, _alloc: Global) -> Result<u8, Memory> {
        Ok(*self)
    }

    ghost form = { byte_form };

    ghost short = { λ value fits lt. unlimited _ lt };
}

impl Encoded for u16 {
    ghost use Rattle.cs_tx_value.specs.laws.Limits.{unlimited};
    ghost use Rattle.std.specs.Prelude.{◌<◌, ◌^◌};
    ghost use Rattle.std.specs.Int.{w16, to_be_bytes};
    ghost use Rattle.cs_base.specs.Fields.{number_at};
    ghost use Rattle.cs_base.proofs.Forms.{number_form, wide16};

    ghost encoding = { to_be_bytes w16 };

    ghost Fits = { λ n. n < 2 ^ 16 };

    ghost found_at = { number_at w16 };

    ghost LIMIT = { 18446744073709551615 };

    const LIMIT: usize = usize::MAX;

    fn read(_alloc: Global, cursor: &mut Cursor<'_>) -> Result<u16, FormError> {
        Ok(cursor.u16()?)
    }

    fn skip(cursor: &mut Cursor<'_>) -> Result<(), FormError> {
        cursor.u16()?;
        Ok(())
    }

    fn encode(&self, out: &mut Writer) -> Result<(), Memory> {
        out.u16(*self)?;
        Ok(())
    }

    fn fits(&self) -> bool {
        let _number = *self;
        true
    }

    fn room(&self, room: usize) -> Option<usize> {
        room.checked_sub(2)
    }

    fn copy(&self, _alloc: Global) -> Result<u16, Memory> {
        Ok(*self)
    }

    ghost form = { number_form w16 (2 ^ 16) wide16 };

    ghost short = { λ value fits lt. unlimited _ lt };
}

impl Encoded for u64 {
    ghost use Rattle.cs_tx_value.specs.laws.Limits.{unlimited};
    ghost use Rattle.std.specs.Prelude.{◌<◌, ◌^◌};
    ghost use Rattle.std.specs.Int.{w64, to_be_bytes};
    ghost use Rattle.cs_base.specs.Fields.{number_at};
    ghost use Rattle.cs_base.proofs.Forms.{number_form, wide64};

    ghost encoding = { to_be_bytes w64 };

    ghost Fits = { λ n. n < 2 ^ 64 };

    ghost found_at = { number_at w64 };

    ghost LIMIT = { 18446744073709551615 };

    const LIMIT: usize = usize::MAX;

    fn read(_alloc: Global, cursor: &mut Cursor<'_>) -> Result<u64, FormError> {
        Ok(cursor.u64()?)
    }

    fn skip(cursor: &mut Cursor<'_>) -> Result<(), FormError> {
        cursor.u64()?;
        Ok(())
    }

    fn encode(&self, out: &mut Writer) -> Result<(), Memory> {
        out.u64(*self)?;
        Ok(())
    }

    fn fits(&self) -> bool {
        let _number = *self;
        true
    }

    fn room(&self, room: usize) -> Option<usize> {
        room.checked_sub(8)
    }

    fn copy(&self, _alloc: Global) -> Result<u64, Memory> {
        Ok(*self)
    }

    ghost form = { number_form w64 (2 ^ 64) wide64 };

    ghost short = { λ value fits lt. unlimited _ lt };
}
