//! Values of contracts.
use crate::copying::copy_value;
use crate::encoded::Encoded;
use crate::equality::same_value;
use crate::fitting::value_fits;
use crate::form::FormError;
use crate::passing::skip_value;
use crate::reading::value_of;
use crate::room::value_room;
use crate::writing::write_value;
use cs_base::{Cursor, Memory, Sequence, Writer};
use std::alloc::Global;

/// A value of a contract. One that fits has at most 256 bytes in a text, at most 64 items in a
/// list, and lists nested at most 4 deep.
#[derive(Drop)]
pub enum Value {
    Int(i64),
    Bool(bool),
    Bytes(Sequence<u8>),
    List(Sequence<Value>),
}

impl Value {
    ghost use Rattle.std.specs.Prelude.{◌≡◌, ◌↔◌, IsTrue};

    /// Whether the values are equal.
    pub fn same(&self, other: &Value) -> bool
        ensures { IsTrue result ↔ (self.now ≡ other.now) }
    {
        same_value(self, other)
    }
}

impl Encoded for Value {
    ghost use Rattle.cs_tx_value.specs.laws.Limits.{unlimited};
    ghost use Rattle.cs_tx_value.specs.Encoding.{value_encoding, ValueFits};
    ghost use Rattle.cs_tx_value.specs.Reading.{value_at};
    ghost use Rattle.cs_tx_value.specs.laws.Value.{value_form};

    ghost encoding = { value_encoding };

    ghost Fits = { ValueFits };

    ghost found_at = { value_at 4 };

    ghost LIMIT = { 18446744073709551615 };

    const LIMIT: usize = usize::MAX;

    fn read(alloc: Global, cursor: &mut Cursor<'_>) -> Result<Value, FormError> {
        value_of(alloc, cursor, 4)
    }

    fn skip(cursor: &mut Cursor<'_>) -> Result<(), FormError> {
        skip_value(cursor, 4)
    }

    fn encode(&self, out: &mut Writer) -> Result<(), Memory> {
        write_value(self, out)
    }

    fn fits(&self) -> bool {
        value_fits(self, 4)
    }

    fn room(&self, room: usize) -> Option<usize> {
        value_room(self, room)
    }

    fn copy(&self, alloc: Global) -> Result<Value, Memory> {
        copy_value(alloc, self)
    }

    ghost form = { value_form 4 };

    ghost short = { λ value fits lt. unlimited _ lt };
}
