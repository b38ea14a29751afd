//! Running the statements of a check. Blocks nest no deeper than a text may open levels, so their
//! statements are run by calls of functions; expressions are evaluated on a stack.
ghost use Rattle.std.specs.Prelude.{◌≡◌, ◌<◌, ℕ, map};
ghost use Rattle.cs_eval_values.specs.Answers.{Stops};
ghost use Rattle.cs_eval_values.specs.Runs.{Run};
ghost use Rattle.cs_eval_values.specs.Datums.{Datum};
ghost use Rattle.cs_eval_law.specs.Acting.{value_run, let_run, set_run, condition as condition_run, numbers};
ghost use Rattle.cs_eval_check.specs.Tasks.{left_in};
ghost use Rattle.cs_eval_place.specs.Located.{located};
ghost use Rattle.cs_eval_place.specs.Locating.{answer_located, turn_located, turns_located, for_to_located, looped_over, LoopsOver, all_located, statement_located, action_located, block_located, EndsSo, Locates, LocatesNames};

use crate::ended::Ended;
use cs_eval::{Scene, Stack, evaluate, expr_places, kind_given};
use cs_eval_check::{Source, item};
use cs_eval_values::{Held, Names, Steps, Stop};
use cs_lang::{Action, Block, Expr, Statement, Text};
use cs_lang_token::MOST_TURNS;
use cs_types_kinds::{INT, Kind};
use std::marker::Brand;
use std::sync::ledger::{Blank, Ledger};

// What an evaluation that stops means here.
fn ended(stop: Stop) -> Ended
    ensures { (n : ℕ) (run : Run Datum) → Stops stop n run → EndsSo result (located run) }
{
    match stop {
        Stop::Answer(answer) => Ended::Answer(answer, 0),
        Stop::Trap(_, place) => Ended::Trap(place),
        Stop::Memory => Ended::Memory,
    }
}

// The value of an expression, where this counts what it spends.
fn value_counted<'a, L: Ledger>(
    scene: &Scene<'_, 'a>,
    names: &Names<'a>,
    expr: &'a Expr,
    blank: Blank,
) -> Result<Held<'a>, Ended>
    requires name { blank.name ≡ L.name }
    requires parts { blank.parts ≡ L.parts }
    requires some { 0 < L.parts }
    ensures { Locates result (located (value_run scene.now.contract.now scene.now.view.now expr.now names.now)) }
{
    let most = expr_places(expr)?;
    let mut frames = Stack::with_capacity(scene.alloc, most)?;
    let mut steps: Steps<L> = Steps::new(blank);
    match evaluate(scene, names, &mut frames, expr, &mut steps) {
        Ok(held) => Ok(held),
        Err(stop) => Err(ended(stop)),
    }
}

// The value of an expression.
fn value<'a>(scene: &Scene<'_, 'a>, names: &Names<'a>, expr: &'a Expr) -> Result<Held<'a>, Ended>
    ensures { Locates result (located (value_run scene.now.contract.now scene.now.view.now expr.now names.now)) }
{
    value_counted::<Brand>(scene, names, expr, Blank::new(1))
}

// A value under a new name.
fn let_name<'a>(
    scene: &Scene<'_, 'a>,
    names: &mut Names<'a>,
    name: &'a Text,
    expr: &'a Expr,
) -> Result<(), Ended>
    ensures { LocatesNames result names.new (located
        (let_run scene.now.contract.now scene.now.view.now name.now expr.now names.old)) }
{
    let Some(kind) = kind_given(scene, names, expr) else {
        return Err(Ended::Trap(name.place));
    };
    let held = value(scene, names, expr)?;
    names.add(name.bytes.as_slice(), name.place, kind, held)?;
    Ok(())
}

// Another value under a name.
fn set_name<'a>(
    scene: &Scene<'_, 'a>,
    names: &mut Names<'a>,
    name: &'a Text,
    expr: &'a Expr,
) -> Result<(), Ended>
    ensures { LocatesNames result names.new (located
        (set_run scene.now.contract.now scene.now.view.now name.now expr.now names.old)) }
{
    let held = value(scene, names, expr)?;
    names.set(name.bytes.as_slice(), name.place, held);
    Ok(())
}

// Whether a condition holds.
fn holds<'a>(
    scene: &Scene<'_, 'a>,
    names: &Names<'a>,
    condition: &'a Expr,
    place: usize,
) -> Result<bool, Ended>
    ensures { Locates result (located
        (condition_run scene.now.contract.now scene.now.view.now condition.now place names.now)) }
{
    let held = value(scene, names, condition)?;
    match held.as_bool() {
        Some(truth) => Ok(truth),
        None => Err(Ended::Trap(place)),
    }
}

// What a loop goes over, and the kind of its items.
fn looped_over<'a>(
    scene: &Scene<'_, 'a>,
    names: &Names<'a>,
    name: &'a Text,
    list: &'a Expr,
) -> Result<(Kind, Held<'a>), Ended>
    ensures { LoopsOver result (located
        (looped_over scene.now.contract.now scene.now.view.now name.now list.now names.now)) }
{
    let kind = match kind_given(scene, names, list) {
        Some(kind) => kind.item_of(),
        None => None,
    };
    let Some(kind) = kind else {
        return Err(Ended::Trap(name.place));
    };
    let held = value(scene, names, list)?;
    if !held.has_items() {
        return Err(Ended::Trap(name.place));
    }
    Ok((kind, held))
}

// A turn of a loop, whose name ends with it.
#[cycle(block)]
fn turn<'a>(
    scene: &Scene<'_, 'a>,
    names: &mut Names<'a>,
    name: &'a [u8],
    offset: usize,
    kind: Kind,
    held: Held<'a>,
    each: &'a Block,
) -> Result<(), Ended>
    ensures { LocatesNames result names.new (turn_located scene.now.contract.now scene.now.view.now
        name.now kind (block_located scene.now.contract.now scene.now.view.now each.now)
        names.old held.entry) }
{
    let before = names.len();
    names.add(name, offset, kind, held)?;
    block(scene, names, each)?;
    names.leave(before);
    Ok(())
}

// The turns of a loop.
#[cycle(block)]
fn turns<'a>(
    scene: &Scene<'_, 'a>,
    names: &mut Names<'a>,
    name: &'a [u8],
    offset: usize,
    kind: Kind,
    source: &Source<'a>,
    each: &'a Block,
) -> Result<(), Ended>
    ensures { LocatesNames result names.new (turns_located scene.now.contract.now scene.now.view.now
        name.now kind (block_located scene.now.contract.now scene.now.view.now each.now)
        (left_in source.now 0) names.old) }
{
    let mut at = 0;
    while let Some(held) = item(source, at)? {
        turn(scene, names, name, offset, kind, held, each)?;
        at += 1;
    }
    Ok(())
}

// A loop over numbers.
#[cycle(block)]
fn for_to<'a>(
    scene: &Scene<'_, 'a>,
    names: &mut Names<'a>,
    name: &'a Text,
    count: u64,
    each: &'a Block,
) -> Result<(), Ended>
    ensures { LocatesNames result names.new
        (for_to_located scene.now.contract.now scene.now.view.now name.now count
        (block_located scene.now.contract.now scene.now.view.now each.now) names.old) }
{
    let source = Source::Numbers(count.min(MOST_TURNS) as u16);
    turns(
        scene,
        names,
        name.bytes.as_slice(),
        name.place,
        INT,
        &source,
        each,
    )
}

// The answer of the check.
fn answer<'a>(scene: &Scene<'_, 'a>, names: &Names<'a>, value: &'a Expr, place: usize) -> Ended
    ensures { EndsSo result
        (answer_located scene.now.contract.now scene.now.view.now value.now place names.now) }
{
    match holds(scene, names, value, place) {
        Ok(truth) => Ended::Answer(truth, place),
        Err(ended) => ended,
    }
}

// What a statement does.
#[cycle(block)]
#[tactic(auto, using(crate::proofs::Actions::actions))]
fn act<'a>(
    scene: &Scene<'_, 'a>,
    names: &mut Names<'a>,
    action: &'a Action,
    place: usize,
) -> Result<(), Ended>
    ensures { LocatesNames result names.new (action_located scene.now.contract.now scene.now.view.now
        action.now place names.old) }
{
    match action {
        Action::Let(name, expr) => let_name(scene, names, name, expr),
        Action::Set(name, expr) => set_name(scene, names, name, expr),
        Action::If(condition, one) => {
            if holds(scene, names, condition, place)? {
                return block(scene, names, one);
            }
            Ok(())
        }
        Action::IfElse(condition, one, other) => {
            if holds(scene, names, condition, place)? {
                return block(scene, names, one);
            }
            block(scene, names, other)
        }
        Action::ForIn(name, list, each) => {
            let (kind, held) = looped_over(scene, names, name, list)?;
            let source = Source::Items(held);
            turns(
                scene,
                names,
                name.bytes.as_slice(),
                name.place,
                kind,
                &source,
                each,
            )
        }
        Action::ForTo(name, count, each) => for_to(scene, names, name, *count, each),
        Action::Make(_, _, _) => Err(Ended::Trap(place)),
        Action::Call(_, _, _) => Err(Ended::Trap(place)),
        Action::Answer(expr) => Err(answer(scene, names, expr, place)),
    }
}

// Statements, one after the other.
#[cycle(block)]
#[tactic(auto, using(crate::proofs::Actions::statement_is))]
fn statements<'a>(
    scene: &Scene<'_, 'a>,
    names: &mut Names<'a>,
    statements: &'a [Statement],
) -> Result<(), Ended>
    ensures { LocatesNames result names.new (all_located scene.now.contract.now scene.now.view.now
        (map (statement_located scene.now.contract.now scene.now.view.now) statements.now) names.old) }
{
    for statement in statements {
        act(scene, names, &statement.action, statement.place)?;
    }
    Ok(())
}

/// A block, whose names end with it.
#[cycle(block)]
#[tactic(auto, using(crate::proofs::Actions::block_is))]
pub fn block<'a>(
    scene: &Scene<'_, 'a>,
    names: &mut Names<'a>,
    block: &'a Block,
) -> Result<(), Ended>
    ensures { LocatesNames result names.new
        (block_located scene.now.contract.now scene.now.view.now block.now names.old) }
{
    let before = names.len();
    statements(scene, names, block.statements.as_slice())?;
    names.leave(before);
    Ok(())
}
