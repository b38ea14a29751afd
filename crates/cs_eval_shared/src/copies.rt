//! Values that become shared ones, and the other way round.
ghost use Rattle.std.specs.Prelude.{◌≡◌, IfOk};

use crate::shared::{Open, Shared};
use cs_base::{Memory, Sequence};
use cs_tx_value::Value;
use std::alloc::Global;

#[cycle(shared_of)]
pub fn each_shared<'a>(alloc: Global, values: &'a [Value]) -> Result<Sequence<Shared<'a>>, Memory>
    ensures { IfOk result (λ items. items ≡ values.now) }
{
    let mut items = Sequence::new(alloc);
    for value in values {
        items.push(shared_of(alloc, value)?)?;
    }
    Ok(items)
}

/// A value that stands in a view, ready to be shared: its lists are made anew, its bytes are lent.
#[cycle(shared_of)]
pub fn shared_of<'a>(alloc: Global, value: &'a Value) -> Result<Shared<'a>, Memory>
    ensures { IfOk result (λ shared. shared ≡ value.now) }
{
    match value {
        Value::Int(number) => Ok(Shared::int(*number)),
        Value::Bool(truth) => Ok(Shared::truth(*truth)),
        Value::Bytes(bytes) => Ok(Shared::text(bytes.as_slice())),
        Value::List(values) => {
            let items = each_shared(alloc, values.as_slice())?;
            Shared::list(alloc, items, usize::MAX)?.ok_or(Memory)
        }
    }
}

fn bytes_of(alloc: Global, bytes: &[u8]) -> Result<Sequence<u8>, Memory>
    ensures { IfOk result (λ copied. copied ≡ bytes.now) }
{
    Ok(Sequence::from_vec(Vec::from_slice(alloc, bytes)?))
}

#[cycle(owned_of)]
fn each_owned<'a>(alloc: Global, values: &[Value]) -> Result<Sequence<Shared<'a>>, Memory>
    ensures { IfOk result (λ items. items ≡ values.now) }
{
    let mut items = Sequence::new(alloc);
    for value in values {
        items.push(owned_of(alloc, value)?)?;
    }
    Ok(items)
}

/// A value that stands somewhere else, ready to be shared: its bytes are copied.
#[cycle(owned_of)]
pub fn owned_of<'a>(alloc: Global, value: &Value) -> Result<Shared<'a>, Memory>
    ensures { IfOk result (λ shared. shared ≡ value.now) }
{
    match value {
        Value::Int(number) => Ok(Shared::int(*number)),
        Value::Bool(truth) => Ok(Shared::truth(*truth)),
        Value::Bytes(bytes) => Shared::bytes(alloc, bytes_of(alloc, bytes.as_slice())?),
        Value::List(values) => {
            let items = each_owned(alloc, values.as_slice())?;
            Shared::list(alloc, items, usize::MAX)?.ok_or(Memory)
        }
    }
}

#[cycle(value_of)]
fn each_value(alloc: Global, items: &[Shared<'_>]) -> Result<Sequence<Value>, Memory>
    ensures { IfOk result (λ values. values ≡ items.now) }
{
    let mut values = Sequence::new(alloc);
    for item in items {
        values.push(value_of(alloc, item)?)?;
    }
    Ok(values)
}

/// The value by itself.
#[cycle(value_of)]
pub fn value_of(alloc: Global, shared: &Shared<'_>) -> Result<Value, Memory>
    ensures { IfOk result (λ value. value ≡ shared.now) }
{
    match shared.open() {
        Open::Int(number) => Ok(Value::Int(number)),
        Open::Bool(truth) => Ok(Value::Bool(truth)),
        Open::Bytes(bytes) => Ok(Value::Bytes(bytes_of(alloc, bytes)?)),
        Open::List(items) => Ok(Value::List(each_value(alloc, items)?)),
    }
}
