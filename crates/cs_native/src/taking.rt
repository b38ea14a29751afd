//! Parts of traces, taken into a hasher as they are encoded, without memory.
ghost use Rattle.std.specs.Prelude.{◌≤◌, ◌<◌, ◌++◌, ◌∷◌, [], length, if◌then◌else◌};
ghost use Rattle.std.specs.Int.{w16, w64, to_be_bytes, cast_unsigned};
ghost use Rattle.cs_base.specs.Fields.{each, counted};
ghost use Rattle.cs_tx_value.specs.Encoding.{value_encoding, ValueFits, AtMost, IsBounded, AreBounded};
ghost use Rattle.cs_tx_value.specs.Name.{name_encoding};
ghost use Rattle.cs_tx_value.specs.Object.{object_encoding, ObjectFits};
ghost use Rattle.cs_tx_types.specs.declared.limits.TheConstants.{MOST_TRACE_OBJECTS};
ghost use Rattle.cs_tx_types.specs.Transaction.{keyed_encoding, KeyedFits};
ghost use Rattle.cs_native.specs.Taking.{Takes};

use cs_tx_value::{Digest, Object, Value};
use sha2::{Digest as Hasher, Sha256};

fn take_int(number: i64, hasher: &mut Sha256)
    ensures { Takes hasher.old hasher.new (0 ∷ to_be_bytes w64 (cast_unsigned w64 number)) }
{
    hasher.update([0]);
    hasher.update(number.cast_unsigned().to_be_bytes());
}

fn take_bool(flag: bool, hasher: &mut Sha256)
    ensures { Takes hasher.old hasher.new (1 ∷ (if flag then 1 else 0) ∷ []) }
{
    hasher.update([1, u8::from(flag)]);
}

fn take_text(text: &[u8], hasher: &mut Sha256)
    requires { length text.now ≤ 256 }
    ensures { Takes hasher.old hasher.new (2 ∷ (to_be_bytes w16 (length text.now) ++ text.now)) }
{
    hasher.update([2]);
    hasher.update((text.len() as u16).to_be_bytes());
    hasher.update(text);
}

#[cycle(take)]
fn take_values(values: &[Value], hasher: &mut Sha256)
    requires { AreBounded values.now }
    ensures { Takes hasher.old hasher.new (each value_encoding values.now) }
{
    for value in values {
        take_value(value, hasher);
    }
}

#[cycle(take)]
fn take_items(items: &[Value], hasher: &mut Sha256)
    requires few { length items.now ≤ 64 }
    requires bounded { AreBounded items.now }
    ensures { Takes hasher.old hasher.new (3 ∷ counted value_encoding items.now) }
{
    hasher.update([3, items.len() as u8]);
    take_values(items, hasher);
}

#[cycle(take)]
#[tactic(auto, using(cs_tx_value::specs::laws::Layers::writes))]
fn take_value(value: &Value, hasher: &mut Sha256)
    requires { IsBounded value.now }
    ensures { Takes hasher.old hasher.new (value_encoding value.now) }
{
    match value {
        Value::Int(number) => take_int(*number, hasher),
        Value::Bool(flag) => take_bool(*flag, hasher),
        Value::Bytes(text) => take_text(text.as_slice(), hasher),
        Value::List(items) => take_items(items.as_slice(), hasher),
    }
}

/// Takes in a name.
pub fn take_name(name: &[u8], hasher: &mut Sha256)
    requires { length name.now ≤ 32 }
    ensures { Takes hasher.old hasher.new (name_encoding name.now) }
{
    hasher.update([name.len() as u8]);
    hasher.update(name);
}

/// Takes in values, behind their number.
pub fn take_counted(values: &[Value], hasher: &mut Sha256)
    requires { AtMost 16 ValueFits values.now }
    ensures { Takes hasher.old hasher.new (counted value_encoding values.now) }
{
    hasher.update([values.len() as u8]);
    take_values(values, hasher);
}

fn take_object(object: &Object, hasher: &mut Sha256)
    requires { ObjectFits object.now }
    ensures { Takes hasher.old hasher.new (object_encoding object.now) }
{
    hasher.update(object.contract);
    take_name(object.type_name.as_slice(), hasher);
    take_counted(object.values.as_slice(), hasher);
}

/// Takes in objects, behind their number.
pub fn take_objects(objects: &[Object], hasher: &mut Sha256)
    requires { AtMost MOST_TRACE_OBJECTS ObjectFits objects.now }
    ensures { Takes hasher.old hasher.new (counted object_encoding objects.now) }
{
    hasher.update([objects.len() as u8]);
    for object in objects {
        take_object(object, hasher);
    }
}

fn take_one_keyed(item: &(Digest, Object), hasher: &mut Sha256)
    requires { KeyedFits item.now }
    ensures { Takes hasher.old hasher.new (keyed_encoding item.now) }
{
    hasher.update(item.0);
    take_object(&item.1, hasher);
}

/// Takes in objects, each behind its key, behind their number.
pub fn take_keyed(items: &[(Digest, Object)], hasher: &mut Sha256)
    requires { AtMost MOST_TRACE_OBJECTS KeyedFits items.now }
    ensures { Takes hasher.old hasher.new (counted keyed_encoding items.now) }
{
    hasher.update([items.len() as u8]);
    for item in items {
        take_one_keyed(item, hasher);
    }
}

/// Takes in numbers of a byte, behind how many there are.
pub fn take_deps(deps: &[u8], hasher: &mut Sha256)
    requires { length deps.now < 256 }
    ensures { Takes hasher.old hasher.new (counted (λ n. n ∷ []) deps.now) }
{
    hasher.update([deps.len() as u8]);
    hasher.update(deps);
}
