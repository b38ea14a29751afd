//! The traces of plain views.
use crate::plain::{Plain, Thing, View};
use cs_base::{Memory, Sequence};
use cs_tx::{Digest, Name, Object, Trace, Value};
use std::alloc::Global;

fn bytes(alloc: Global, content: &[u8]) -> Result<Sequence<u8>, Memory> {
    Ok(Sequence::from_vec(Vec::from_slice(alloc, content)?))
}

fn name(alloc: Global, text: &str) -> Result<Name, Memory> {
    Ok(Name::from_vec(Vec::from_slice(alloc, text.as_bytes())?))
}

fn value(alloc: Global, plain: Plain) -> Result<Value, Memory> {
    match plain {
        Plain::Number(number) => Ok(Value::Int(number)),
        Plain::Said(text) => Ok(Value::Bytes(bytes(alloc, text.bytes())?)),
    }
}

fn object(alloc: Global, contract: Digest, thing: Thing) -> Result<Object, Memory> {
    let mut values = Sequence::new(alloc);
    values.push(value(alloc, thing.first)?)?;
    if let Some(second) = thing.second {
        values.push(value(alloc, second)?)?;
    }
    Ok(Object {
        contract,
        type_name: name(alloc, thing.type_name)?,
        values,
    })
}

fn keyed(
    alloc: Global,
    contract: Digest,
    things: &[Thing],
) -> Result<Sequence<(Digest, Object)>, Memory> {
    let mut objects = Sequence::new(alloc);
    for thing in things {
        objects.push(([7; 32], object(alloc, contract, *thing)?))?;
    }
    Ok(objects)
}

fn alone(alloc: Global, contract: Digest, things: &[Thing]) -> Result<Sequence<Object>, Memory> {
    let mut objects = Sequence::new(alloc);
    for thing in things {
        objects.push(object(alloc, contract, *thing)?)?;
    }
    Ok(objects)
}

fn values(alloc: Global, plains: &[Plain]) -> Result<Sequence<Value>, Memory> {
    let mut values = Sequence::new(alloc);
    for plain in plains {
        values.push(value(alloc, *plain)?)?;
    }
    Ok(values)
}

/// The trace of a contract that shows this view.
pub fn trace_of(alloc: Global, contract: Digest, view: &View) -> Result<Trace, Memory> {
    let read: &[Thing] = if view.reads {
        view.inputs.as_slice()
    } else {
        &[]
    };
    let returned: &[Plain] = if view.returns {
        &[Plain::Number(1)]
    } else {
        &[]
    };
    let below: &[u8] = if view.stands { &[0] } else { &[] };
    Ok(Trace {
        contract,
        method: name(alloc, view.method)?,
        inputs: keyed(alloc, contract, view.inputs.as_slice())?,
        references: keyed(alloc, contract, read)?,
        parameters: values(alloc, view.parameters.as_slice())?,
        outputs: alone(alloc, contract, view.outputs.as_slice())?,
        returns: values(alloc, returned)?,
        deps: bytes(alloc, below)?,
    })
}
