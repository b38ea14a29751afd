//! Printing values and objects as the language writes them.
ghost use Rattle.std.specs.Prelude.{◌≡◌, ◌++◌, codes, OnOk, IfOk, string_bytes};
ghost use Rattle.std.specs.Fmt.{signed_decimal};
ghost use Rattle.cs_cases.specs.Printed.{truth_text, digits_text, quoted_text, comma_at, comma_row, value_text, each_value, values_text, object_text, each_object, objects_text};

use cs_base::{Memory, print_bytes};
use cs_tx_value::{Object, Value};
use std::alloc::{AllocError, Global};

fn int_text(alloc: Global, number: i64) -> Result<String, AllocError>
    ensures { IfOk result (λ text. string_bytes text ≡ signed_decimal number) }
{
    format!(in alloc; "{number}")
}

fn put_int(alloc: Global, number: i64, out: &mut Vec<u8>) -> Result<(), Memory>
    ensures { OnOk result (out.new.items ≡ out.old.items ++ signed_decimal number) }
{
    let text = int_text(alloc, number)?;
    out.extend_from_slice(text.as_bytes())?;
    Ok(())
}

fn put_truth(truth: bool, out: &mut Vec<u8>) -> Result<(), Memory>
    ensures { OnOk result (out.new.items ≡ out.old.items ++ truth_text truth) }
{
    if truth {
        out.extend_from_slice(b"true")?;
    } else {
        out.extend_from_slice(b"false")?;
    }
    Ok(())
}

// Two hex digits for each byte.
fn put_digits(alloc: Global, bytes: &[u8], out: &mut Vec<u8>) -> Result<(), Memory>
    ensures { OnOk result (out.new.items ≡ out.old.items ++ digits_text bytes.now) }
{
    match bytes {
        [] => Ok(()),
        [_, ..] => {
            let text = print_bytes(alloc, bytes)?;
            out.extend_from_slice(text.as_bytes())?;
            Ok(())
        }
    }
}

fn put_quoted(alloc: Global, bytes: &[u8], out: &mut Vec<u8>) -> Result<(), Memory>
    ensures { OnOk result (out.new.items ≡ out.old.items ++ quoted_text bytes.now) }
{
    out.extend_from_slice(b"x\"")?;
    put_digits(alloc, bytes, out)?;
    out.extend_from_slice(b"\"")?;
    Ok(())
}

// A comma in front of all but the first.
fn put_comma(place: usize, out: &mut Vec<u8>) -> Result<(), Memory>
    ensures { OnOk result (out.new.items ≡ out.old.items ++ comma_at place) }
{
    if place == 0 {
        return Ok(());
    }
    out.extend_from_slice(b", ")?;
    Ok(())
}

// The value at a place of a row.
#[cycle(print)]
fn put_item(alloc: Global, place: usize, value: &Value, out: &mut Vec<u8>) -> Result<(), Memory>
    ensures { OnOk result
        (out.new.items ≡ out.old.items ++ (comma_at place ++ value_text value.now)) }
{
    put_comma(place, out)?;
    put_value(alloc, value, out)
}

// Values with commas between them.
#[cycle(print)]
fn put_row(alloc: Global, values: &[Value], out: &mut Vec<u8>) -> Result<(), Memory>
    ensures { OnOk result (out.new.items ≡ out.old.items ++ comma_row (each_value values.now)) }
{
    for (place, value) in values.iter().enumerate() {
        put_item(alloc, place, value, out)?;
    }
    Ok(())
}

#[cycle(print)]
fn put_list(alloc: Global, items: &[Value], out: &mut Vec<u8>) -> Result<(), Memory>
    ensures { OnOk result
        (out.new.items ≡ out.old.items ++ (codes "[" ++ (comma_row (each_value items.now) ++ codes "]"))) }
{
    out.extend_from_slice(b"[")?;
    put_row(alloc, items, out)?;
    out.extend_from_slice(b"]")?;
    Ok(())
}

// A value.
#[cycle(print)]
#[tactic(auto, using(crate::proofs::Layers::texts))]
fn put_value(alloc: Global, value: &Value, out: &mut Vec<u8>) -> Result<(), Memory>
    ensures { OnOk result (out.new.items ≡ out.old.items ++ value_text value.now) }
{
    match value {
        Value::Int(number) => put_int(alloc, *number, out),
        Value::Bool(truth) => put_truth(*truth, out),
        Value::Bytes(bytes) => put_quoted(alloc, bytes.as_slice(), out),
        Value::List(items) => put_list(alloc, items.as_slice(), out),
    }
}

/// Values in parentheses.
pub fn put_values(alloc: Global, values: &[Value], out: &mut Vec<u8>) -> Result<(), Memory>
    ensures { OnOk result (out.new.items ≡ out.old.items ++ values_text values.now) }
{
    out.extend_from_slice(b"(")?;
    put_row(alloc, values, out)?;
    out.extend_from_slice(b")")?;
    Ok(())
}

// An object.
fn put_object(alloc: Global, object: &Object, out: &mut Vec<u8>) -> Result<(), Memory>
    ensures { OnOk result (out.new.items ≡ out.old.items ++ object_text object.now) }
{
    out.extend_from_slice(object.type_name.as_slice())?;
    put_values(alloc, object.values.as_slice(), out)
}

// The object at a place of a row.
fn put_object_item(
    alloc: Global,
    place: usize,
    object: &Object,
    out: &mut Vec<u8>,
) -> Result<(), Memory>
    ensures { OnOk result
        (out.new.items ≡ out.old.items ++ (comma_at place ++ object_text object.now)) }
{
    put_comma(place, out)?;
    put_object(alloc, object, out)
}

// Objects with commas between them.
fn put_object_row(alloc: Global, objects: &[Object], out: &mut Vec<u8>) -> Result<(), Memory>
    ensures { OnOk result (out.new.items ≡ out.old.items ++ comma_row (each_object objects.now)) }
{
    for (place, object) in objects.iter().enumerate() {
        put_object_item(alloc, place, object, out)?;
    }
    Ok(())
}

/// Objects in parentheses.
pub fn put_objects(alloc: Global, objects: &[Object], out: &mut Vec<u8>) -> Result<(), Memory>
    ensures { OnOk result (out.new.items ≡ out.old.items ++ objects_text objects.now) }
{
    out.extend_from_slice(b"(")?;
    put_object_row(alloc, objects, out)?;
    out.extend_from_slice(b")")?;
    Ok(())
}
