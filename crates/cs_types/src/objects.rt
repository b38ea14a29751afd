//! Statements that make objects.
ghost use Rattle.std.specs.Prelude.{◌≡◌, length, Some};
ghost use Rattle.cs_types.specs.Stating.{field_wanted, fields_wanted, takes_object, not_created, named_type, unknown_in, make_told, make_judged};
ghost use Rattle.cs_types.specs.Blocks.{part, parts};
ghost use Rattle.cs_types.specs.Steps.{AddsNames};
ghost use Rattle.cs_types_kinds.specs.Scopes.{created_slot};

use crate::names::is_taken;
use cs_lang::{Expr, Field, Text, TypeDef};
use cs_types_kinds::{Kind, Scope, TypeError, declared_kind, expect, plus, type_number};

/// The sum of what so far came together and the costs of values that have to be of the kinds of
/// fields, of which there are as many.
pub fn fields_wanted(
    scope: &Scope<'_>,
    fields: &[Field],
    values: &[Expr],
    start: u64,
) -> Result<u64, TypeError>
    requires { length fields.now ≡ length values.now }
    ensures { result ≡ fields_wanted fields.now (parts values.now scope.now) start }
{
    let mut sum = start;
    for i in 0..fields.len() {
        sum = field_wanted(scope, &fields[i], &values[i], sum)?;
    }
    Ok(sum)
}

/// The sum with the cost of a value that has to be of a field's kind.
fn field_wanted(scope: &Scope<'_>, field: &Field, value: &Expr, sum: u64) -> Result<u64, TypeError>
    ensures { result ≡ field_wanted field.now (part value.now scope.now) sum }
{
    let kind = declared_kind(&field.kind, field.name.place)?;
    let cost = expect(scope, value, kind)?;
    Ok(plus(sum, cost))
}

/// Whether a slot of the kind takes objects of the type with this number.
fn takes_object(kind: Kind, number: usize) -> bool
    ensures { result ≡ takes_object kind number }
{
    kind.same(Kind::Object(number)) || kind.same(Kind::Objects(number))
}

/// Why a name that is no created slot can't be filled.
fn not_created(scope: &Scope<'_>, slot: &Text) -> Result<u64, TypeError>
    ensures { result ≡ not_created scope.now slot.now }
{
    if is_taken(scope, slot) {
        return Err(TypeError::Mistyped(slot.place));
    }
    Err(TypeError::Unbound(slot.place))
}

/// Why an object of a type that isn't declared can't be made.
fn make_missing(scope: &Scope<'_>, slot: &Text, object: &Text) -> Result<u64, TypeError>
    ensures { result ≡
        unknown_in (created_slot slot.now.bytes scope.now.names) slot.now object.now scope.now }
{
    match scope.find_created(slot.bytes.as_slice()) {
        Some(_) => Err(TypeError::Unbound(object.place)),
        None => not_created(scope, slot),
    }
}

/// What the fields of a new object of the type with this number cost.
fn make_found(
    scope: &Scope<'_>,
    number: usize,
    typedef: &TypeDef,
    slot: &Text,
    object: &Text,
    values: &[Expr],
    place: usize,
) -> Result<u64, TypeError>
    ensures { result ≡ make_told (Some (number, typedef.now))
        slot.now object.now (parts values.now scope.now) place scope.now }
{
    let fields = typedef.fields.as_slice();
    if fields.len() != values.len() {
        return Err(TypeError::Mistyped(place));
    }
    match scope.find_created(slot.bytes.as_slice()) {
        Some(created) => {
            if !takes_object(created.kind, number) {
                return Err(TypeError::Mistyped(object.place));
            }
            fields_wanted(scope, fields, values, 0)
        }
        None => not_created(scope, slot),
    }
}

/// What the fields of a new object cost.
fn make_fields(
    scope: &Scope<'_>,
    slot: &Text,
    object: &Text,
    values: &[Expr],
    place: usize,
) -> Result<u64, TypeError>
    ensures { result ≡ make_told (named_type object.now.bytes scope.now.contract.types)
        slot.now object.now (parts values.now scope.now) place scope.now }
{
    let types = scope.contract().types.as_slice();
    match type_number(types, object.bytes.as_slice()) {
        Some(number) => match types.get(number) {
            Some(typedef) => make_found(scope, number, typedef, slot, object, values, place),
            None => make_missing(scope, slot, object),
        },
        None => make_missing(scope, slot, object),
    }
}

/// A new object.
#[tactic(auto, using(crate::proofs::Staying::stays))]
pub fn make_statement(
    scope: &mut Scope<'_>,
    slot: &Text,
    object: &Text,
    values: &[Expr],
    place: usize,
) -> Result<u64, TypeError>
    ensures { AddsNames result scope.old scope.new
        (make_judged slot.now object.now (parts values.now) place scope.old) }
{
    if scope.in_check() {
        return Err(TypeError::Mistyped(place));
    }
    make_fields(scope, slot, object, values, place)
}
