//! The rule of `token`, asked of one trace.
ghost use Rattle.std.specs.Prelude.{◌≡◌, ◌≤◌, ◌<◌, ◌^◌, length, IfSome};
ghost use Rattle.cs_tx_value.specs.declared.value.Value.{out-Value};
ghost use Rattle.cs_tx_types.specs.declared.limits.TheConstants.{MOST_TRACE_OBJECTS};
ghost use Rattle.cs_tx_types.specs.Transaction.{TraceFits};
ghost use Rattle.cs_tx.specs.Token.{amount_of_layer, amount_of_coin, sum_from, is_transfer};

use cs_eval_values::Objects;
use cs_tx_types::Trace;
use cs_tx_value::{Object, Value};

fn amount(value: &Value) -> Option<u64>
    ensures amount { result ≡ amount_of_layer (out-Value value.now) }
    ensures small { IfSome result (λ amount. amount < 2 ^ 63) }
{
    match value {
        Value::Int(number) if *number >= 0 => Some(*number as u64),
        _ => None,
    }
}

fn amount_of_coin(coin: &Object) -> Option<u64>
    ensures amount { result ≡ amount_of_coin coin.now }
    ensures small { IfSome result (λ amount. amount < 2 ^ 63) }
{
    match coin.values.as_slice() {
        [value] if coin.type_name.as_slice() == b"coin".as_slice() => amount(value),
        _ => None,
    }
}

// What coins sum up to, each of them below 2^63.
fn sum_of(coins: &Objects<'_>) -> Option<u128>
    requires { length coins.now ≤ MOST_TRACE_OBJECTS }
    ensures { result ≡ sum_from coins.now 0 }
{
    let mut sum = 0;
    for place in 0..coins.len() {
        let amount = amount_of_coin(coins.get(place)?)?;
        sum += u128::from(amount);
    }
    Some(sum)
}

/// Whether a trace is a transfer of coins.
pub fn is_transfer(trace: &Trace) -> bool
    requires { TraceFits trace.now }
    ensures { result ≡ is_transfer trace.now }
{
    if trace.method.as_slice() != b"transfer".as_slice()
        || trace.parameters.len() != 0
        || trace.returns.len() != 0
    {
        return false;
    }
    let spent = sum_of(&Objects::keyed(trace.inputs.as_slice()));
    let made = sum_of(&Objects::alone(trace.outputs.as_slice()));
    spent.is_some() && spent == made
}
