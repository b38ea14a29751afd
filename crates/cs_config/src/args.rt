//! The arguments of a call.
ghost use Rattle.std.specs.Prelude.{◌≡◌, IfOk};
ghost use Rattle.toml.specs.View.{view, items_view};
ghost use Rattle.cs_config.specs.Items.{arg_of, args_of, bytes_arg_of};

use crate::hex_values::read_hex;
use crate::readable::Readable;
use cs_base::{Memory, Sequence};
use cs_tx_value::Value;
use std::alloc::Global;

// The value of which the text is the hex.
fn read_bytes(alloc: Global, text: &str) -> Result<Option<Value>, Memory>
    ensures { IfOk result (λ read. read ≡ bytes_arg_of text.now) }
{
    match read_hex(alloc, text)? {
        Some(bytes) => Ok(Some(Value::Bytes(Sequence::from_vec(bytes)))),
        None => Ok(None),
    }
}

#[cycle(args)]
fn read_args(alloc: Global, items: &[toml::Value]) -> Result<Option<Sequence<Value>>, Memory>
    ensures { IfOk result (λ read. read ≡ args_of (items_view items.now)) }
{
    let mut found = Sequence::new(alloc);
    for item in items {
        let Some(one) = read_arg(alloc, item)? else {
            return Ok(None);
        };
        found.push(one)?;
    }
    Ok(Some(found))
}

#[cycle(args)]
fn read_arg(alloc: Global, value: &toml::Value) -> Result<Option<Value>, Memory>
    ensures { IfOk result (λ read. read ≡ arg_of (view value.now)) }
{
    match value {
        toml::Value::String(text) => read_bytes(alloc, text.as_str()),
        toml::Value::Integer(number) => Ok(Some(Value::Int(*number))),
        toml::Value::Boolean(flag) => Ok(Some(Value::Bool(*flag))),
        toml::Value::Array(items) => match read_args(alloc, items)? {
            Some(list) => Ok(Some(Value::List(list))),
            None => Ok(None),
        },
        toml::Value::Float(_) => Ok(None),
        toml::Value::Datetime(_) => Ok(None),
        toml::Value::Table(_) => Ok(None),
    }
}

impl Readable for Value {
    ghost meaning = { arg_of };

    ghost Fits = { λ _. Unit {0} };

    fn read(alloc: Global, value: &toml::Value) -> Result<Option<Value>, Memory> {
        read_arg(alloc, value)
    }
}
