//! Values of a file that are read one by one.
ghost use Rattle.std.specs.Prelude.{◌≡◌, Option, IfOk, IfSome};
ghost use Rattle.std.specs.List.{AllByRecursion};
ghost use Rattle.toml.specs.Data.{Data, as_integer, as_str};
ghost use Rattle.toml.specs.View.{view, items_view};
ghost use Rattle.cs_config.specs.Reading.{each_item};
ghost use Rattle.cs_config.specs.Items.{hex_digest, hex_object};
ghost use Rattle.cs_tx_value.specs.Object.{ObjectFits};

use crate::hex_values::{read_digest, read_object};
use cs_base::{Memory, Sequence};
use cs_io::Text;
use cs_tx_value::Object;
use std::alloc::Global;
use toml::Value;

/// What single values of a file may say.
pub trait Readable: Sized + Drop {
    /// What is read of a value, where it can be read.
    ghost meaning: { Data → Option Self };

    /// What holds of all that is read.
    ghost Fits: { Self → Type 0 };

    /// Reads a value; None where it is of another type, or unreadable.
    fn read(alloc: Global, value: &Value) -> Result<Option<Self>, Memory>
        ensures given { IfOk result (λ read. read ≡ meaning (view value.now)) }
        ensures fits { IfOk result (λ read. IfSome read Fits) };
}

/// Reads each item; None where one can't be read.
pub fn read_each<T: Readable>(alloc: Global, items: &[Value]) -> Result<Option<Sequence<T>>, Memory>
    ensures given { IfOk result (λ read. read ≡ each_item T.meaning (items_view items.now)) }
    ensures fits { IfOk result (λ read. IfSome read (AllByRecursion T.Fits)) }
{
    let mut found = Sequence::new(alloc);
    for item in items {
        let Some(one) = T::read(alloc, item)? else {
            return Ok(None);
        };
        found.push(one)?;
    }
    Ok(Some(found))
}

impl Readable for i64 {
    ghost meaning = { as_integer };

    ghost Fits = { λ _. Unit {0} };

    fn read(_alloc: Global, value: &Value) -> Result<Option<i64>, Memory> {
        Ok(value.as_integer())
    }
}

impl Readable for Text {
    ghost meaning = { as_str };

    ghost Fits = { λ _. Unit {0} };

    fn read(alloc: Global, value: &Value) -> Result<Option<Text>, Memory> {
        match value.as_str() {
            Some(text) => Ok(Some(Text::from_string(String::from_str(alloc, text)?))),
            None => Ok(None),
        }
    }
}

impl Readable for [u8; 32] {
    ghost meaning = { hex_digest };

    ghost Fits = { λ _. Unit {0} };

    fn read(alloc: Global, value: &Value) -> Result<Option<[u8; 32]>, Memory> {
        match value.as_str() {
            Some(text) => read_digest(alloc, text),
            None => Ok(None),
        }
    }
}

impl Readable for Object {
    ghost meaning = { hex_object };

    ghost Fits = { ObjectFits };

    fn read(alloc: Global, value: &Value) -> Result<Option<Object>, Memory> {
        match value.as_str() {
            Some(text) => read_object(alloc, text),
            None => Ok(None),
        }
    }
}
