//! Statements that name values.
ghost use Rattle.std.specs.Prelude.{◌≡◌};
ghost use Rattle.cs_types.specs.Stating.{is_taken, is_value, can_be_set, let_judged, set_judged};
ghost use Rattle.cs_types.specs.Blocks.{part};
ghost use Rattle.cs_types.specs.Steps.{AddsNames};

use cs_lang::{Expr, Text};
use cs_types_kinds::{Kind, Scope, TypeError, Use, expect, judge};
use std::alloc::Global;

/// Whether the name is in sight.
pub fn is_taken(scope: &Scope<'_>, name: &Text) -> bool
    ensures { result ≡ is_taken scope.now name.now }
{
    scope.find(name.bytes.as_slice()).is_some()
}

fn is_value(kind: Kind) -> bool
    ensures { result ≡ is_value kind }
{
    match kind {
        Kind::Value(_, _) => true,
        _ => false,
    }
}

fn can_be_set(usage: Use) -> bool
    ensures { result ≡ can_be_set usage }
{
    match usage {
        Use::Set => true,
        _ => false,
    }
}

/// A name for a value.
#[tactic(auto, using(crate::proofs::Staying::stays, cs_types_kinds::proofs::Layers::part_first))]
pub fn let_statement(
    alloc: Global,
    scope: &mut Scope<'_>,
    name: &Text,
    value: &Expr,
) -> Result<u64, TypeError>
    ensures { AddsNames result scope.old scope.new (let_judged name.now (part value.now) scope.old) }
{
    if is_taken(scope, name) {
        return Err(TypeError::Mistyped(name.place));
    }
    let found = judge(scope, value)?;
    if !is_value(found.kind) {
        return Err(TypeError::Mistyped(value.first));
    }
    scope.add(alloc, name.bytes.as_slice(), found.kind, Use::Set)?;
    Ok(found.cost)
}

/// A new value for a name.
#[tactic(auto, using(crate::proofs::Staying::stays))]
pub fn set_statement(scope: &mut Scope<'_>, name: &Text, value: &Expr) -> Result<u64, TypeError>
    ensures { AddsNames result scope.old scope.new (set_judged name.now (part value.now) scope.old) }
{
    match scope.find(name.bytes.as_slice()) {
        Some(seen) => {
            if !can_be_set(seen.usage) {
                return Err(TypeError::Mistyped(name.place));
            }
            expect(scope, value, seen.kind)
        }
        None => Err(TypeError::Unbound(name.place)),
    }
}
