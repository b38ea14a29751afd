//! Objects.
use crate::digest::Digest;
use crate::encoded::Encoded;
use crate::equality::same_values;
use crate::form::FormError;
use crate::lists::{copy_each, few_fit, read_counted, room_counted, skip_counted, write_counted};
use crate::name::Name;
use crate::value::Value;
use cs_base::{Cursor, MOST_OBJECT, Memory, Sequence, Writer};
use std::alloc::Global;

/// An object of a contract. One that fits has at most 16 values, and an encoding of at most
/// 4,096 bytes.
#[derive(Drop)]
pub struct Object {
    pub contract: Digest,
    pub type_name: Name,
    pub values: Sequence<Value>,
}

impl Object {
    ghost use Rattle.std.specs.Prelude.{◌≡◌, ◌↔◌, IsTrue};

    /// Whether the objects are equal.
    pub fn same(&self, other: &Object) -> bool
        ensures { IsTrue result ↔ (self.now ≡ other.now) }
    {
        if self.contract != other.contract {
            return false;
        }
        if self.type_name.as_slice() != other.type_name.as_slice() {
            return false;
        }
        same_values(self.values.as_slice(), other.values.as_slice())
    }
}

impl Encoded for Object {
    ghost use Rattle.cs_tx_value.specs.Object.{object_encoding, ObjectFits, object_at};
    ghost use Rattle.cs_base.specs.declared.limits.TheConstants.{MOST_OBJECT};
    ghost use Rattle.cs_tx_value.specs.laws.Object.{object_form};

    ghost encoding = { object_encoding };

    ghost Fits = { ObjectFits };

    ghost found_at = { object_at };

    ghost LIMIT = { MOST_OBJECT };

    const LIMIT: usize = MOST_OBJECT;

    #[tactic(auto, unfolding(crate::specs::Object::object_at, cs_base::specs::Fields::within_at, cs_base::specs::Fields::pair_at))]
    fn read(alloc: Global, cursor: &mut Cursor<'_>) -> Result<Object, FormError> {
        let before = cursor.len();
        let contract = Digest::read(alloc, cursor)?;
        let type_name = Name::read(alloc, cursor)?;
        let values = read_counted(alloc, cursor, 16)?;
        if before.saturating_sub(cursor.len()) > MOST_OBJECT {
            return Err(FormError::BadForm);
        }
        Ok(Object {
            contract,
            type_name,
            values,
        })
    }

    #[tactic(auto, unfolding(crate::specs::Object::object_at, cs_base::specs::Fields::within_at, cs_base::specs::Fields::pair_at))]
    fn skip(cursor: &mut Cursor<'_>) -> Result<(), FormError> {
        let before = cursor.len();
        Digest::skip(cursor)?;
        Name::skip(cursor)?;
        skip_counted::<Value>(cursor, 16)?;
        if before.saturating_sub(cursor.len()) > MOST_OBJECT {
            return Err(FormError::BadForm);
        }
        Ok(())
    }

    fn encode(&self, out: &mut Writer) -> Result<(), Memory> {
        self.contract.encode(out)?;
        self.type_name.encode(out)?;
        write_counted(&self.values, out)
    }

    fn fits(&self) -> bool {
        if !self.contract.fits() || !self.type_name.fits() || !few_fit(&self.values, 16) {
            return false;
        }
        self.room(MOST_OBJECT).is_some()
    }

    fn room(&self, room: usize) -> Option<usize> {
        let room = self.contract.room(room)?;
        let room = self.type_name.room(room)?;
        room_counted(&self.values, room)
    }

    fn copy(&self, alloc: Global) -> Result<Object, Memory> {
        Ok(Object {
            contract: self.contract,
            type_name: self.type_name.copy(alloc)?,
            values: copy_each(alloc, &self.values)?,
        })
    }

    ghost form = { object_form };

    ghost short = { λ object fits lt. fits.small };
}
