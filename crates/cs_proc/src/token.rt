//! The procedure of `token`.
ghost use Rattle.std.specs.Prelude.{◌≡◌, [], IfOk, map};
ghost use Rattle.std.specs.List.{list_all};
ghost use Rattle.cs_tx_value.specs.declared.value.Value.{out-Value};
ghost use Rattle.cs_eval_values.specs.Lending.{lent_object};
ghost use Rattle.cs_proc.specs.Transfer.{is_int, are_amount, is_coin, coin_of, coins_made, transferred};

use crate::call::Call;
use cs_base::{Memory, Sequence};
use cs_tx::id_of_token;
use cs_tx_types::Trace;
use cs_tx_value::{Digest, Encoded, Name, Object, Value, copy_each};
use std::alloc::Global;

fn is_int(value: &Value) -> bool
    ensures { result ≡ is_int (out-Value value.now) }
{
    match value {
        Value::Int(_) => true,
        _ => false,
    }
}

fn are_amount(values: &[Value]) -> bool
    ensures { result ≡ are_amount values.now }
{
    match values {
        [value] => is_int(value),
        _ => false,
    }
}

fn is_coin(object: &Object) -> bool
    ensures { result ≡ is_coin object.now }
{
    object.contract == id_of_token()
        && object.type_name.as_slice() == b"coin".as_slice()
        && are_amount(object.values.as_slice())
}

fn are_coins(items: &[(Digest, Object)]) -> bool
    ensures { result ≡ list_all is_coin (map lent_object items.now) }
{
    for item in items {
        if !is_coin(&item.1) {
            return false;
        }
    }
    true
}

fn coin_of(alloc: Global, value: &Value) -> Result<Object, Memory>
    ensures { IfOk result (λ coin. coin ≡ coin_of value.now) }
{
    let mut values = Sequence::new(alloc);
    values.push(value.copy(alloc)?)?;
    Ok(Object {
        contract: id_of_token(),
        type_name: Name::from_vec(Vec::from_slice(alloc, b"coin")?),
        values,
    })
}

fn coins_made(alloc: Global, arguments: &[Value]) -> Result<Option<Sequence<Object>>, Memory>
    ensures { IfOk result (λ coins. coins ≡ coins_made [] arguments.now) }
{
    let mut coins = Sequence::new(alloc);
    for argument in arguments {
        if !is_int(argument) {
            return Ok(None);
        }
        coins.push(coin_of(alloc, argument)?)?;
    }
    Ok(Some(coins))
}

/// Coins of the arguments' values, made of the inputs: the one trace, where all fits.
pub fn transfer(alloc: Global, call: &Call) -> Result<Option<Sequence<Trace>>, Memory>
    ensures { IfOk result (λ traces. traces ≡ transferred call.now) }
{
    if !are_coins(call.inputs.as_slice()) {
        return Ok(None);
    }
    let Some(outputs) = coins_made(alloc, call.args.as_slice())? else {
        return Ok(None);
    };
    let mut traces = Sequence::new(alloc);
    traces.push(Trace {
        contract: id_of_token(),
        method: Name::from_vec(Vec::from_slice(alloc, b"transfer")?),
        inputs: copy_each(alloc, &call.inputs)?,
        references: copy_each(alloc, &call.reads)?,
        parameters: Sequence::new(alloc),
        outputs,
        returns: Sequence::new(alloc),
        deps: Sequence::new(alloc),
    })?;
    Ok(Some(traces))
}
