//! Kinds and costs of statements and blocks.
ghost use Rattle.std.specs.Prelude.{◌≡◌, map};
ghost use Rattle.cs_types.specs.Stating.{turns, turn_judged, if_told, for_in_told, for_to_judged, answer_judged, statement_added};
ghost use Rattle.cs_types.specs.Blocks.{part, action_told, statement_told, block_told};
ghost use Rattle.cs_types.specs.Steps.{AddsNames, Sums, Blocks};
ghost use Rattle.cs_types_kinds.specs.Told.{told_through};

use crate::calls::call_statement;
use crate::names::{is_taken, let_statement, set_statement};
use crate::objects::make_statement;
use cs_lang::{Action, Block, Expr, Statement, Text};
use cs_lang_token::{LIST_TURNS, MOST_TURNS};
use cs_types_kinds::{BOOL, INT, Judged, Kind, Scope, TypeError, Use, expect, judge, plus};
use std::alloc::Global;

/// What so many turns cost.
fn turns(count: u64, cost: u64) -> u64
    ensures { result ≡ turns count cost }
{
    count.saturating_mul(plus(cost, 1))
}

/// What is done where something holds, of whose cost this is told.
#[cycle(running)]
#[tactic(auto, using(crate::proofs::Staying::stays))]
fn if_statement(
    alloc: Global,
    scope: &mut Scope<'_>,
    told: Result<u64, TypeError>,
    then: &Block,
) -> Result<u64, TypeError>
    ensures { AddsNames result scope.old scope.new (if_told told (block_told then.now) scope.old) }
{
    let cost = told?;
    let more = block(alloc, scope, then)?;
    Ok(plus(cost, more))
}

/// What one turn of a loop costs.
#[cycle(running)]
#[tactic(auto, using(crate::proofs::Staying::stays))]
fn turn(
    alloc: Global,
    scope: &mut Scope<'_>,
    name: &Text,
    kind: Kind,
    each: &Block,
) -> Result<u64, TypeError>
    ensures { Blocks result scope.old scope.new
        (turn_judged name.now kind (block_told each.now) scope.old) }
{
    let names = scope.names();
    scope.add(alloc, name.bytes.as_slice(), kind, Use::Read)?;
    let cost = block(alloc, scope, each)?;
    scope.leave(names);
    Ok(cost)
}

/// A loop over a list: what is told of it, and where it begins.
#[cycle(running)]
#[tactic(auto, using(crate::proofs::Staying::stays))]
fn for_in_statement(
    alloc: Global,
    scope: &mut Scope<'_>,
    name: &Text,
    told: Result<Judged, TypeError>,
    first: usize,
    each: &Block,
) -> Result<u64, TypeError>
    ensures { AddsNames result scope.old scope.new
        (for_in_told name.now told first (block_told each.now) scope.old) }
{
    if is_taken(scope, name) {
        return Err(TypeError::Mistyped(name.place));
    }
    let found = told?;
    match found.kind.item_of() {
        Some(kind) => {
            let cost = turn(alloc, scope, name, kind, each)?;
            Ok(plus(found.cost, turns(LIST_TURNS, cost)))
        }
        None => Err(TypeError::Mistyped(first)),
    }
}

/// A loop over numbers.
#[cycle(running)]
#[tactic(auto, using(crate::proofs::Staying::stays))]
fn for_to_statement(
    alloc: Global,
    scope: &mut Scope<'_>,
    name: &Text,
    count: u64,
    each: &Block,
    place: usize,
) -> Result<u64, TypeError>
    ensures { AddsNames result scope.old scope.new
        (for_to_judged name.now count (block_told each.now) place scope.old) }
{
    if count > MOST_TURNS {
        return Err(TypeError::Mistyped(place));
    }
    if is_taken(scope, name) {
        return Err(TypeError::Mistyped(name.place));
    }
    let cost = turn(alloc, scope, name, INT, each)?;
    Ok(turns(count, cost))
}

/// The answer of a check.
#[tactic(auto, using(crate::proofs::Staying::stays))]
fn answer_statement(scope: &mut Scope<'_>, value: &Expr, place: usize) -> Result<u64, TypeError>
    ensures { AddsNames result scope.old scope.new (answer_judged (part value.now) place scope.old) }
{
    if !scope.in_check() {
        return Err(TypeError::Mistyped(place));
    }
    expect(scope, value, BOOL)
}

/// What a statement does.
#[cycle(running)]
#[tactic(auto, using(crate::proofs::Actions::actions, crate::proofs::Staying::stays))]
fn action(
    alloc: Global,
    scope: &mut Scope<'_>,
    action: &Action,
    place: usize,
) -> Result<u64, TypeError>
    ensures { AddsNames result scope.old scope.new (action_told action.now place scope.old) }
{
    match action {
        Action::Let(name, value) => let_statement(alloc, scope, name, value),
        Action::Set(name, value) => set_statement(scope, name, value),
        Action::If(condition, then) => {
            let told = expect(scope, condition, BOOL);
            if_statement(alloc, scope, told, then)
        }
        Action::IfElse(condition, then, other) => {
            let cost = expect(scope, condition, BOOL)?;
            let first = block(alloc, scope, then)?;
            let second = block(alloc, scope, other)?;
            Ok(plus(cost, first.max(second)))
        }
        Action::ForIn(name, list, each) => {
            let told = judge(scope, list);
            for_in_statement(alloc, scope, name, told, list.first, each)
        }
        Action::ForTo(name, count, each) => {
            for_to_statement(alloc, scope, name, *count, each, place)
        }
        Action::Make(slot, object, fields) => {
            make_statement(scope, slot, object, fields.as_slice(), place)
        }
        Action::Call(names, method, arguments) => call_statement(
            alloc,
            scope,
            names.as_slice(),
            method,
            arguments.as_slice(),
            place,
        ),
        Action::Answer(value) => answer_statement(scope, value, place),
    }
}

/// A statement.
#[cycle(running)]
#[tactic(auto, using(crate::proofs::Actions::statement_is, crate::proofs::Staying::stays))]
fn statement(alloc: Global, scope: &mut Scope<'_>, one: &Statement) -> Result<u64, TypeError>
    ensures { AddsNames result scope.old scope.new (statement_told one.now scope.old) }
{
    let cost = action(alloc, scope, &one.action, one.place)?;
    Ok(plus(cost, 1))
}

/// Statements, behind which their names are still in sight.
#[cycle(running)]
fn statements(alloc: Global, scope: &mut Scope<'_>, all: &[Statement]) -> Result<u64, TypeError>
    ensures { Sums result scope.old scope.new
        (told_through statement_added (0, scope.old) (map statement_told all.now)) }
{
    let mut sum = 0;
    for one in all {
        sum = add_statement(alloc, scope, sum, one)?;
    }
    Ok(sum)
}

/// The sum with the cost of a statement.
#[cycle(running)]
#[tactic(auto, using(crate::proofs::Staying::stays))]
fn add_statement(
    alloc: Global,
    scope: &mut Scope<'_>,
    sum: u64,
    one: &Statement,
) -> Result<u64, TypeError>
    ensures { Sums result scope.old scope.new
        (statement_added (sum, scope.old) (statement_told one.now)) }
{
    let cost = statement(alloc, scope, one)?;
    Ok(plus(sum, cost))
}

/// The cost of a block, whose names end with it.
#[cycle(running)]
#[tactic(auto, using(crate::proofs::Actions::block_is, crate::proofs::Staying::stays))]
pub fn block(alloc: Global, scope: &mut Scope<'_>, block: &Block) -> Result<u64, TypeError>
    ensures { Blocks result scope.old scope.new (block_told block.now scope.old) }
{
    let names = scope.names();
    let cost = statements(alloc, scope, block.statements.as_slice())?;
    scope.leave(names);
    Ok(cost)
}
