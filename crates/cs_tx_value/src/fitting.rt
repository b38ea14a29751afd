//! Whether a value has an encoding.
ghost use Rattle.std.specs.Prelude.{◌≤◌, ◌↔◌, length, IsTrue};
ghost use Rattle.std.specs.List.{AllByRecursion};
ghost use Rattle.cs_base.specs.Fields.{IsBytes};
ghost use Rattle.cs_tx_value.specs.Encoding.{ValueFitsIn};

use crate::value::Value;

fn text_fits(text: &[u8]) -> bool
    ensures { IsTrue result ↔ ((length text.now ≤ 256) × IsBytes text.now) }
{
    text.len() <= 256
}

#[cycle(fits)]
fn values_fit(values: &[Value], depth: u8) -> bool
    ensures { IsTrue result ↔ AllByRecursion (ValueFitsIn depth) values.now }
{
    for value in values {
        if !value_fits(value, depth) {
            return false;
        }
    }
    true
}

/// Whether a value has an encoding where lists may nest so deep.
#[cycle(fits)]
pub fn value_fits(value: &Value, depth: u8) -> bool
    ensures { IsTrue result ↔ ValueFitsIn depth value.now }
{
    match value {
        Value::Int(number) => {
            let _number = *number;
            true
        }
        Value::Bool(_) => true,
        Value::Bytes(text) => text_fits(text.as_slice()),
        Value::List(items) => {
            if depth == 0 || items.len() > 64 {
                return false;
            }
            values_fit(items.as_slice(), depth - 1)
        }
    }
}
