//! Statements that call methods.
ghost use Rattle.std.specs.Prelude.{◌≡◌, ◌++◌, ◌∷◌, [], length, slice_get, Some};
ghost use Rattle.std.specs.List.{list_any};
ghost use Rattle.cs_types.specs.Stating.{is_starred, takes_many, is_text, fresh, all_fresh, one_bound, bound, procedure_cost, call_unknown, call_told, call_judged};
ghost use Rattle.cs_types.specs.Blocks.{parts};
ghost use Rattle.cs_types.specs.Steps.{AddsNames, StatementPasses, BindsNames};

use crate::names::is_taken;
use crate::objects::fields_wanted;
use cs_lang::{Expr, Field, Method, Slot, Text};
use cs_types_kinds::{Scope, TypeError, Use, declared_kind, method_number};
use std::alloc::Global;

fn has_star(slots: &[Slot]) -> bool
    ensures { result ≡ list_any is_starred slots.now }
{
    slots.iter().any(|slot| slot.many)
}

/// Whether a method consumes or reads any number of objects.
pub fn takes_many(method: &Method) -> bool
    ensures { result ≡ takes_many method.now }
{
    has_star(method.consumes.as_slice()) || has_star(method.reads.as_slice())
}

fn has_text(names: &[Text], name: &Text) -> bool
    ensures { result ≡ list_any (is_text name.now) names.now }
{
    names
        .iter()
        .any(|other| other.bytes.as_slice() == name.bytes.as_slice())
}

/// Tests that names repeat none that is in sight, and none among them.
fn all_fresh(scope: &Scope<'_>, names: &[Text]) -> Result<(), TypeError>
    ensures { StatementPasses result names.now (all_fresh scope.now names.now) }
{
    for i in 0..names.len() {
        fresh(scope, names.split_at(i).0, &names[i])?;
    }
    Ok(())
}

/// Tests that a name repeats none that is in sight or stands before it.
fn fresh(scope: &Scope<'_>, before: &[Text], name: &Text) -> Result<(), TypeError>
    ensures { StatementPasses result (before.now ++ name.now ∷ []) (fresh scope.now before.now name.now) }
{
    if is_taken(scope, name) || has_text(before, name) {
        return Err(TypeError::Mistyped(name.place));
    }
    Ok(())
}

/// Binds names to what a method returns, which is as much.
fn bind(
    alloc: Global,
    scope: &mut Scope<'_>,
    names: &[Text],
    fields: &[Field],
) -> Result<(), TypeError>
    requires { length names.now ≡ length fields.now }
    ensures { BindsNames result scope.old scope.new (bound names.now fields.now scope.old.names) }
{
    for i in 0..names.len() {
        bind_one(alloc, scope, &names[i], &fields[i])?;
    }
    Ok(())
}

/// Binds a name to what a method returns.
#[tactic(auto, using(crate::proofs::Staying::stays))]
fn bind_one(
    alloc: Global,
    scope: &mut Scope<'_>,
    name: &Text,
    field: &Field,
) -> Result<(), TypeError>
    ensures { BindsNames result scope.old scope.new (one_bound name.now field.now scope.old.names) }
{
    let kind = declared_kind(&field.kind, field.name.place)?;
    scope.add(alloc, name.bytes.as_slice(), kind, Use::Read)
}

/// A call of a method above, whose procedure costs so much.
#[tactic(auto, using(crate::proofs::Staying::stays))]
fn call_found(
    alloc: Global,
    scope: &mut Scope<'_>,
    callee: &Method,
    cost: u64,
    names: &[Text],
    method: &Text,
    arguments: &[Expr],
    place: usize,
) -> Result<u64, TypeError>
    ensures { AddsNames result scope.old scope.new
        (call_told (Some (callee.now, cost)) names.now method.now
        (parts arguments.now scope.old) place scope.old) }
{
    if callee.takes.len() != arguments.len() || callee.returns.len() != names.len() {
        return Err(TypeError::Mistyped(place));
    }
    all_fresh(scope, names)?;
    if takes_many(callee) {
        return Err(TypeError::Mistyped(method.place));
    }
    let sum = fields_wanted(scope, callee.takes.as_slice(), arguments, cost)?;
    bind(alloc, scope, names, callee.returns.as_slice())?;
    Ok(sum)
}

/// Why a method that doesn't stand above can't be called.
#[tactic(auto, using(crate::proofs::Staying::stays))]
fn call_missing(scope: &Scope<'_>, names: &[Text], method: &Text) -> Result<u64, TypeError>
    ensures { AddsNames result scope.now scope.now (call_unknown names.now method.now scope.now) }
{
    all_fresh(scope, names)?;
    Err(TypeError::Unbound(method.place))
}

/// A call of a method.
#[tactic(auto, using(crate::proofs::Staying::stays))]
pub fn call_statement(
    alloc: Global,
    scope: &mut Scope<'_>,
    names: &[Text],
    method: &Text,
    arguments: &[Expr],
    place: usize,
) -> Result<u64, TypeError>
    ensures { AddsNames result scope.old scope.new
        (call_judged names.now method.now (parts arguments.now) place scope.old) }
{
    if scope.in_check() || scope.is_starred() {
        return Err(TypeError::Mistyped(place));
    }
    let methods = scope.contract().methods.as_slice();
    let Some(number) = method_number(methods, method.bytes.as_slice()) else {
        return call_missing(scope, names, method);
    };
    let Some(callee) = methods.get(number) else {
        return call_missing(scope, names, method);
    };
    match cost_above(scope, number) {
        Some(cost) => call_found(alloc, scope, callee, cost, names, method, arguments, place),
        None => call_missing(scope, names, method),
    }
}

/// What the procedure of the method with this number costs, where it stands above.
fn cost_above(scope: &Scope<'_>, number: usize) -> Option<u64>
    ensures { result ≡ procedure_cost (slice_get scope.now.costs number) }
{
    match scope.costs().get(number) {
        Some(costs) => Some(costs.procedure),
        None => None,
    }
}
