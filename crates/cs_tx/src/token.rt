//! The contract `token`.
ghost use Rattle.std.specs.Prelude.{◌≡◌, ◌≤◌, ◌<◌, ◌^◌, length, map, IfSome};
ghost use Rattle.cs_tx_value.specs.declared.value.Value.{out-Value};
ghost use Rattle.cs_tx_types.specs.declared.limits.TheConstants.{MOST_TRACE_OBJECTS};
ghost use Rattle.cs_tx_types.specs.Transaction.{TraceFits};
ghost use Rattle.cs_tx.specs.Token.{token_id, amount_of_layer, amount_of, amount_of_coin, sum_from, is_balanced, is_transfer};

use crate::judge::Judge;
use cs_base::Memory;
use cs_tx_types::{Trace, Tx};
use cs_tx_value::{Digest, Object, Value};
use sha2::{Digest as Hasher, Sha256};
use std::alloc::Global;

fn int_amount(value: &Value) -> Option<u64>
    ensures amount { result ≡ amount_of_layer (out-Value value.now) }
    ensures small { IfSome result (λ amount. amount < 2 ^ 63) }
{
    match value {
        Value::Int(number) if *number >= 0 => Some(*number as u64),
        _ => None,
    }
}

fn coin_amount(coin: &Object) -> Option<u64>
    ensures amount { result ≡ amount_of_coin coin.now }
    ensures small { IfSome result (λ amount. amount < 2 ^ 63) }
{
    if coin.type_name.as_slice() != b"coin".as_slice() {
        return None;
    }
    match coin.values.as_slice() {
        [value] => int_amount(value),
        _ => None,
    }
}

fn input_sum(items: &[(Digest, Object)]) -> Option<u128>
    requires { length items.now ≤ MOST_TRACE_OBJECTS }
    ensures { result ≡ sum_from (map (λ item. item.1) items.now) 0 }
{
    let mut sum = 0;
    for item in items {
        sum += u128::from(coin_amount(&item.1)?);
    }
    Some(sum)
}

fn output_sum(objects: &[Object]) -> Option<u128>
    requires { length objects.now ≤ MOST_TRACE_OBJECTS }
    ensures { result ≡ sum_from objects.now 0 }
{
    let mut sum = 0;
    for object in objects {
        sum += u128::from(coin_amount(object)?);
    }
    Some(sum)
}

fn balances(trace: &Trace) -> bool
    requires { TraceFits trace.now }
    ensures { result ≡ is_balanced trace.now }
{
    let inputs = input_sum(trace.inputs.as_slice());
    let outputs = output_sum(trace.outputs.as_slice());
    match (inputs, outputs) {
        (Some(spent), Some(made)) => spent == made,
        _ => false,
    }
}

fn transfers(trace: &Trace) -> bool
    requires { TraceFits trace.now }
    ensures { result ≡ is_transfer trace.now }
{
    trace.method.as_slice() == b"transfer".as_slice()
        && trace.parameters.len() == 0
        && trace.returns.len() == 0
        && balances(trace)
}

/// The id of `token`, the contract that is known by name.
pub fn id_of_token() -> Digest
    ensures { result ≡ token_id }
{
    Sha256::digest(b"token")
}

/// Knows the contract `token` alone: a trace of another contract isn't approved.
#[derive(Clone, Copy, Debug, PartialEq, Eq)]
pub struct TokenJudge;

impl Judge for TokenJudge {
    ghost use Rattle.cs_tx.specs.Token.{is_token_approved};

    ghost is_approved = { λ _ tx. is_token_approved tx };

    fn approves(&self, _alloc: Global, tx: &Tx) -> Result<bool, Memory> {
        let token = id_of_token();
        for trace in tx.traces.as_slice() {
            if trace.contract != token || !transfers(trace) {
                return Ok(false);
            }
        }
        Ok(true)
    }
}
