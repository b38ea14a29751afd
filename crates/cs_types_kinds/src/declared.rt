//! Looking up what a contract declares.
ghost use Rattle.std.specs.Prelude.{◌≡◌};
ghost use Rattle.cs_types_kinds.specs.Lookups.{type_number, method_number, declared_kind, is_named_field, named_field, field_kind};

use crate::fault::TypeError;
use crate::kind::{Kind, kind_of};
use cs_lang::{ContractTree, Field, Method, Text, TypeDef, ValueKind};

/// The number of the type of this name.
pub fn type_number(types: &[TypeDef], name: &[u8]) -> Option<usize>
    ensures { result ≡ type_number name.now types.now }
{
    types
        .iter()
        .position(|typedef| typedef.name.bytes.as_slice() == name)
}

/// The number of the method of this name.
pub fn method_number(methods: &[Method], name: &[u8]) -> Option<usize>
    ensures { result ≡ method_number name.now methods.now }
{
    methods
        .iter()
        .position(|method| method.name.bytes.as_slice() == name)
}

/// The kind that is declared at a place.
pub fn declared_kind(kind: &ValueKind, place: usize) -> Result<Kind, TypeError>
    ensures { result ≡ declared_kind place kind.now }
{
    match kind_of(kind) {
        Some(kind) => Ok(kind),
        None => Err(TypeError::Mistyped(place)),
    }
}

/// Whether the field has this name.
fn is_named_field(field: &Field, name: &Text) -> bool
    ensures { result ≡ is_named_field name.now field.now }
{
    field.name.bytes.as_slice() == name.bytes.as_slice()
}

/// The kind of the field of this name.
fn named_field(fields: &[Field], name: &Text) -> Result<Kind, TypeError>
    ensures { result ≡ named_field name.now fields.now }
{
    for field in fields {
        if is_named_field(field, name) {
            return declared_kind(&field.kind, name.place);
        }
    }
    Err(TypeError::Unbound(name.place))
}

/// The kind of a field of the type with this number.
pub fn field_kind(contract: &ContractTree, number: usize, name: &Text) -> Result<Kind, TypeError>
    ensures { result ≡ field_kind contract.now number name.now }
{
    match contract.types.as_slice().get(number) {
        Some(typedef) => named_field(typedef.fields.as_slice(), name),
        None => Err(TypeError::Unbound(name.place)),
    }
}
