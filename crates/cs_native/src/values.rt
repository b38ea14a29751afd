//! What values are.
ghost use Rattle.std.specs.Prelude.{◌≡◌, ◌<◌, ◌^◌, IfSome};
ghost use Rattle.cs_tx_value.specs.declared.value.Value.{out-Value};
ghost use Rattle.cs_tx.specs.Token.{amount_of_layer};
ghost use Rattle.cs_native.specs.Values.{int_of_layer};

use cs_tx_value::Value;

/// The int that a value is.
pub fn int_of(value: &Value) -> Option<i64>
    ensures { result ≡ int_of_layer (out-Value value.now) }
{
    match value {
        Value::Int(number) => Some(*number),
        _ => None,
    }
}

/// The amount that a value is: an int of at least 0.
pub fn amount(value: &Value) -> Option<u64>
    ensures amount { result ≡ amount_of_layer (out-Value value.now) }
    ensures small { IfSome result (λ amount. amount < 2 ^ 63) }
{
    match value {
        Value::Int(number) if *number >= 0 => Some(*number as u64),
        _ => None,
    }
}
