//! Writing values.
ghost use Rattle.std.specs.Prelude.{◌≡◌, ◌≤◌, [], ◌∷◌, ◌++◌, length, if◌then◌else◌, OnOk, OnErr};
ghost use Rattle.cs_base.specs.Fields.{each, counted};
ghost use Rattle.std.specs.Int.{w16, w64, to_be_bytes, cast_unsigned};
ghost use Rattle.cs_tx_value.specs.Encoding.{value_encoding, IsBounded, AreBounded};
ghost use Rattle.cs_tx_value.specs.Reading.{Begins};

use crate::value::Value;
use cs_base::{Memory, Writer};

fn put_int(number: i64, out: &mut Writer) -> Result<(), Memory>
    ensures ok { OnOk result
        (out.new ≡ out.old ++ (0 ∷ to_be_bytes w64 (cast_unsigned w64 number))) }
    ensures err { OnErr result (Begins out.new out.old) }
{
    out.u8(0)?;
    out.u64(number.cast_unsigned())
}

fn put_bool(flag: bool, out: &mut Writer) -> Result<(), Memory>
    ensures ok { OnOk result (out.new ≡ out.old ++ (1 ∷ (if flag then 1 else 0) ∷ [])) }
    ensures err { OnErr result (Begins out.new out.old) }
{
    out.u8(1)?;
    out.u8(u8::from(flag))
}

fn put_text(text: &[u8], out: &mut Writer) -> Result<(), Memory>
    requires { length text.now ≤ 256 }
    ensures ok { OnOk result
        (out.new ≡ out.old ++ (2 ∷ (to_be_bytes w16 (length text.now) ++ text.now))) }
    ensures err { OnErr result (Begins out.new out.old) }
{
    out.u8(2)?;
    out.u16(text.len() as u16)?;
    out.take(text)
}

#[cycle(write)]
fn write_values(values: &[Value], out: &mut Writer) -> Result<(), Memory>
    requires { AreBounded values.now }
    ensures ok { OnOk result (out.new ≡ out.old ++ each value_encoding values.now) }
    ensures err { OnErr result (Begins out.new out.old) }
{
    for value in values {
        write_value(value, out)?;
    }
    Ok(())
}

#[cycle(write)]
fn put_items(items: &[Value], out: &mut Writer) -> Result<(), Memory>
    requires few { length items.now ≤ 64 }
    requires bounded { AreBounded items.now }
    ensures ok { OnOk result (out.new ≡ out.old ++ (3 ∷ counted value_encoding items.now)) }
    ensures err { OnErr result (Begins out.new out.old) }
{
    out.u8(3)?;
    out.u8(items.len() as u8)?;
    write_values(items, out)
}

/// Appends the encoding of a value.
#[cycle(write)]
#[tactic(auto, using(crate::specs::laws::Layers::writes))]
pub fn write_value(value: &Value, out: &mut Writer) -> Result<(), Memory>
    requires { IsBounded value.now }
    ensures ok { OnOk result (out.new ≡ out.old ++ value_encoding value.now) }
    ensures err { OnErr result (Begins out.new out.old) }
{
    match value {
        Value::Int(number) => put_int(*number, out),
        Value::Bool(flag) => put_bool(*flag, out),
        Value::Bytes(text) => put_text(text.as_slice(), out),
        Value::List(items) => put_items(items.as_slice(), out),
    }
}
