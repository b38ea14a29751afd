//! The statements of a procedure that call no method. Nothing goes down a block by calls of
//! functions: what is left to do stands on a stack.
ghost use Rattle.std.specs.Prelude.{◌≡◌, ◌+◌, ◌-◌, ◌<◌, ◌≤◌, ◌∷◌, [], ℕ, min, IfOk, OnOk, IfErr};
ghost use Rattle.cs_eval_values.specs.declared.stop.Cause.TheVariants as cause;
ghost use Rattle.cs_eval.specs.declared.scene.Scene.{Scene as Seeing};
ghost use Rattle.cs_eval_check.specs.declared.task.Task.TheVariants as task_is;
ghost use Rattle.cs_eval_law.specs.Acting.{value_run, condition as condition_run};
ghost use Rattle.cs_eval_check.specs.TaskWork.{turns_work, work_of_block, work_of_other, loop_work, tasks_work};
ghost use Rattle.cs_proc_parts.specs.declared.ending.Ending.TheVariants as ending;
ghost use Rattle.cs_proc_parts.specs.declared.ending.Halt.TheVariants as halt;
ghost use Rattle.cs_proc.specs.Acting.{let_does, set_does, for_in_does, for_to_does, argument_run, arguments_run, object_of, make_does, block_does};
ghost use Rattle.cs_proc.specs.Tasks.{choice_does, calls_at, rest_of_procedure, then_rest_of_procedure, RunGivesValue, TasksDo, Acts};

use crate::procedures_running::Running;
use cs_base::{Memory, Sequence};
use cs_eval::{Scene, evaluate, expr_places, kind_given};
use cs_eval_check::{Loop, Source, Task, item};
use cs_eval_values::{Cause, Held, Steps, with_value};
use cs_lang::{Block, Expr, Statement, Text};
use cs_lang_token::{MOST_ITEMS, MOST_TURNS};
use cs_proc_parts::{Ending, Halt};
use cs_tx_value::{Name, Object, Value};
use cs_types_kinds::INT;
use std::sync::ledger::Ledger;

/// A value of a wrong kind, or a name that stands for nothing.
pub fn misfit(place: usize) -> Halt
    ensures { result ≡ halt.End (ending.Trap cause.Misfit place) }
{
    Halt::End(Ending::Trap(Cause::Misfit, place))
}

/// Statements are done next, and then all but so many names end.
fn enter<'a>(
    running: &mut Running<'a>,
    statements: &'a [Statement],
    names: usize,
) -> Result<(), Halt>
    ensures tasks { OnOk result (running.new.tasks.items
        ≡ task_is.Statements statements.entry ∷ task_is.Leave names ∷ running.old.tasks.items) }
    ensures doing { OnOk result (running.new.doing ≡ running.old.doing) }
    ensures frames { OnOk result (running.new.frames ≡ running.old.frames) }
    ensures memory { IfErr result (λ e. e ≡ halt.Memory) }
{
    running.tasks.push_growing(Task::Leave(names))?;
    running.tasks.push_growing(Task::Statements(statements))?;
    Ok(())
}

/// A block is done next.
pub fn enter_block<'a>(running: &mut Running<'a>, block: &'a Block) -> Result<(), Halt>
    requires { running.old.frames.items ≡ [] }
    ensures acts { (scene : Seeing) (above : ℕ) → Acts scene above result 0
        (then_rest_of_procedure scene above running.old.tasks.items
        (block_does scene.contract.now scene.view.now (calls_at scene above)
        block.now running.old.doing)) running.new }
    ensures idle { OnOk result (running.new.frames.items ≡ []) }
    ensures smaller { OnOk result (tasks_work running.new.tasks.items
        ≡ work_of_block block.now + tasks_work running.old.tasks.items) }
{
    let names = running.doing.names.len();
    enter(running, block.statements.as_slice(), names)
}

/// The value of an expression. Places are taken for each of them, where those that are there don't do.
fn value<'a, L: Ledger>(
    scene: &Scene<'_, 'a>,
    running: &mut Running<'a>,
    expression: &'a Expr,
    steps: &mut Steps<L>,
) -> Result<Held<'a>, Halt>
    requires { running.old.frames.items ≡ [] }
    ensures evaluates { RunGivesValue result (steps.new - steps.old)
        (value_run scene.now.contract.now scene.now.view.now
        expression.now running.old.doing.names) running.new.frames.items }
    ensures counted { steps.old ≤ steps.new }
    ensures doing { running.new.doing ≡ running.old.doing }
    ensures tasks { running.new.tasks.items ≡ running.old.tasks.items }
{
    running.frames.reserve(expr_places(expression)?)?;
    let names = &running.doing.names;
    match evaluate(scene, names, &mut running.frames, expression, steps) {
        Ok(held) => Ok(held),
        Err(stop) => Err(Halt::from(stop)),
    }
}

/// A value under a new name.
#[tactic(auto, using(crate::proofs::Outcomes::lets))]
pub fn let_name<'a, L: Ledger>(
    scene: &Scene<'_, 'a>,
    running: &mut Running<'a>,
    name: &'a Text,
    expression: &'a Expr,
    steps: &mut Steps<L>,
) -> Result<(), Halt>
    requires { running.old.frames.items ≡ [] }
    ensures does { TasksDo result (steps.new - steps.old)
        (let_does scene.now.contract.now scene.now.view.now
        name.now expression.now running.old.doing) running.new }
    ensures counted { steps.old ≤ steps.new }
    ensures tasks { running.new.tasks.items ≡ running.old.tasks.items }
{
    let Some(kind) = kind_given(scene, &running.doing.names, expression) else {
        return Err(misfit(name.place));
    };
    let held = value(scene, running, expression, steps)?;
    running
        .doing
        .names
        .add(name.bytes.as_slice(), name.place, kind, held)?;
    Ok(())
}

/// Another value under a name.
#[tactic(auto, using(crate::proofs::Outcomes::sets))]
pub fn set_name<'a, L: Ledger>(
    scene: &Scene<'_, 'a>,
    running: &mut Running<'a>,
    name: &'a Text,
    expression: &'a Expr,
    steps: &mut Steps<L>,
) -> Result<(), Halt>
    requires { running.old.frames.items ≡ [] }
    ensures does { TasksDo result (steps.new - steps.old)
        (set_does scene.now.contract.now scene.now.view.now
        name.now expression.now running.old.doing) running.new }
    ensures counted { steps.old ≤ steps.new }
    ensures tasks { running.new.tasks.items ≡ running.old.tasks.items }
{
    let held = value(scene, running, expression, steps)?;
    running
        .doing
        .names
        .set(name.bytes.as_slice(), name.place, held);
    Ok(())
}

/// Whether a condition holds.
#[tactic(auto, using(crate::proofs::Outcomes::conditions))]
fn holds<'a, L: Ledger>(
    scene: &Scene<'_, 'a>,
    running: &mut Running<'a>,
    condition: &'a Expr,
    place: usize,
    steps: &mut Steps<L>,
) -> Result<bool, Halt>
    requires { running.old.frames.items ≡ [] }
    ensures evaluates { RunGivesValue result (steps.new - steps.old)
        (condition_run scene.now.contract.now scene.now.view.now
        condition.now place running.old.doing.names) running.new.frames.items }
    ensures counted { steps.old ≤ steps.new }
    ensures doing { running.new.doing ≡ running.old.doing }
    ensures tasks { running.new.tasks.items ≡ running.old.tasks.items }
{
    let held = value(scene, running, condition, steps)?;
    match held.as_bool() {
        Some(truth) => Ok(truth),
        None => Err(misfit(place)),
    }
}

/// One block where a condition holds, and the other one, if there is one, where it doesn't.
#[tactic(auto, using(crate::proofs::Outcomes::choices))]
pub fn choose<'a, L: Ledger>(
    scene: &Scene<'_, 'a>,
    running: &mut Running<'a>,
    condition: &'a Expr,
    place: usize,
    block: &'a Block,
    other: Option<&'a Block>,
    steps: &mut Steps<L>,
) -> Result<(), Halt>
    requires { running.old.frames.items ≡ [] }
    ensures acts { (above : ℕ) → Acts scene.now above result (steps.new - steps.old)
        (then_rest_of_procedure scene.now above running.old.tasks.items
        (choice_does scene.now.contract.now scene.now.view.now (calls_at scene.now above)
        condition.now block.now other.entry place running.old.doing)) running.new }
    ensures counted { steps.old ≤ steps.new }
    ensures smaller { OnOk result (tasks_work running.new.tasks.items
        ≤ work_of_block block.now + work_of_other other.entry + tasks_work running.old.tasks.items) }
{
    if holds(scene, running, condition, place, steps)? {
        return enter_block(running, block);
    }
    match other {
        Some(other) => enter_block(running, other),
        None => Ok(()),
    }
}

/// A loop over a list or objects.
#[tactic(auto, using(crate::proofs::Outcomes::in_loops))]
pub fn for_in<'a, L: Ledger>(
    scene: &Scene<'_, 'a>,
    running: &mut Running<'a>,
    name: &'a Text,
    list: &'a Expr,
    each: &'a Block,
    steps: &mut Steps<L>,
) -> Result<(), Halt>
    requires { running.old.frames.items ≡ [] }
    ensures acts { (above : ℕ) → Acts scene.now above result (steps.new - steps.old)
        (then_rest_of_procedure scene.now above running.old.tasks.items
        (for_in_does scene.now.contract.now scene.now.view.now name.now list.now
        (block_does scene.now.contract.now scene.now.view.now (calls_at scene.now above)
        each.now) running.old.doing)) running.new }
    ensures counted { steps.old ≤ steps.new }
    ensures smaller { OnOk result (tasks_work running.new.tasks.items
        ≡ turns_work MOST_ITEMS (work_of_block each.now) + tasks_work running.old.tasks.items) }
{
    let kind = match kind_given(scene, &running.doing.names, list) {
        Some(kind) => kind.item_of(),
        None => None,
    };
    let Some(kind) = kind else {
        return Err(misfit(name.place));
    };
    let held = value(scene, running, list, steps)?;
    if !held.has_items() {
        return Err(misfit(name.place));
    }
    running.tasks.push_growing(Task::Loop(Loop {
        name: name.bytes.as_slice(),
        offset: name.place,
        kind,
        each,
        source: Source::Items(held),
        at: 0,
    }))?;
    Ok(())
}

/// A loop over numbers.
#[tactic(auto, using(crate::proofs::Outcomes::to_begun))]
pub fn for_to<'a>(
    running: &mut Running<'a>,
    name: &'a Text,
    count: u64,
    each: &'a Block,
) -> Result<(), Halt>
    requires { running.old.frames.items ≡ [] }
    ensures acts { (scene : Seeing) (above : ℕ) → Acts scene above result 0
        (then_rest_of_procedure scene above running.old.tasks.items
        (for_to_does scene.contract.now scene.view.now name.now count
        (block_does scene.contract.now scene.view.now (calls_at scene above) each.now)
        running.old.doing)) running.new }
    ensures smaller { OnOk result (tasks_work running.new.tasks.items
        ≡ turns_work (min count MOST_TURNS) (work_of_block each.now)
        + tasks_work running.old.tasks.items) }
{
    running.tasks.push_growing(Task::Loop(Loop {
        name: name.bytes.as_slice(),
        offset: name.place,
        kind: INT,
        each,
        source: Source::Numbers(count.min(MOST_TURNS) as u16),
        at: 0,
    }))?;
    Ok(())
}

/// A turn of a loop, where there is one more.
#[tactic(auto, using(crate::proofs::Outcomes::loop_over))]
pub fn turn<'a, L: Ledger>(
    scene: &Scene<'_, 'a>,
    running: &mut Running<'a>,
    looping: Loop<'a>,
    steps: &mut Steps<L>,
) -> Result<(), Halt>
    requires { running.old.frames.items ≡ [] }
    ensures acts { (above : ℕ) → Acts scene.now above result (steps.new - steps.old)
        (rest_of_procedure scene.now above (task_is.Loop looping.entry ∷ running.old.tasks.items)
        running.old.doing) running.new }
    ensures counted { steps.old ≤ steps.new }
    ensures smaller { OnOk result (tasks_work running.new.tasks.items
        < loop_work looping.entry + tasks_work running.old.tasks.items) }
{
    let Some(held) = item(&looping.source, looping.at)? else {
        return Ok(());
    };
    steps.spend(1);
    let names = running.doing.names.len();
    let Loop {
        name,
        offset,
        kind,
        each,
        source,
        at,
    } = looping;
    running.tasks.push_growing(Task::Loop(Loop {
        name,
        offset,
        kind,
        each,
        source,
        at: at + 1,
    }))?;
    running.doing.names.add(name, offset, kind, held)?;
    enter(running, each.statements.as_slice(), names)
}

/// The values before an argument, and its value behind them.
fn argument<'a, L: Ledger>(
    scene: &Scene<'_, 'a>,
    running: &mut Running<'a>,
    values: Sequence<Value>,
    expression: &'a Expr,
    place: usize,
    steps: &mut Steps<L>,
) -> Result<Sequence<Value>, Halt>
    requires { running.old.frames.items ≡ [] }
    ensures evaluates { RunGivesValue result (steps.new - steps.old)
        (argument_run scene.now.contract.now scene.now.view.now place running.old.doing.names
        values expression.now) running.new.frames.items }
    ensures counted { steps.old ≤ steps.new }
    ensures doing { running.new.doing ≡ running.old.doing }
    ensures tasks { running.new.tasks.items ≡ running.old.tasks.items }
{
    let held = value(scene, running, expression, steps)?;
    match with_value(scene.alloc, values, held, place) {
        Ok(values) => Ok(values),
        Err(stop) => Err(Halt::from(stop)),
    }
}

/// The values of expressions, from the left.
pub fn arguments<'a, L: Ledger>(
    scene: &Scene<'_, 'a>,
    running: &mut Running<'a>,
    expressions: &'a [Expr],
    place: usize,
    steps: &mut Steps<L>,
) -> Result<Sequence<Value>, Halt>
    requires { running.old.frames.items ≡ [] }
    ensures evaluates { RunGivesValue result (steps.new - steps.old)
        (arguments_run scene.now.contract.now scene.now.view.now
        expressions.now place running.old.doing.names) running.new.frames.items }
    ensures counted { steps.old ≤ steps.new }
    ensures doing { running.new.doing ≡ running.old.doing }
    ensures tasks { running.new.tasks.items ≡ running.old.tasks.items }
{
    let mut values = Sequence::new(scene.alloc);
    for expression in expressions {
        values = argument(scene, running, values, expression, place, steps)?;
    }
    Ok(values)
}

/// An object of the contract.
fn object<'a>(scene: &Scene<'_, 'a>, name: &Text, values: Sequence<Value>) -> Result<Object, Memory>
    ensures { IfOk result (λ object. object
        ≡ object_of scene.now.contract.now scene.now.view.now name.now values) }
{
    Ok(Object {
        contract: *scene.view.contract(),
        type_name: Name::from_vec(Vec::from_slice(scene.alloc, name.bytes.as_slice())?),
        values,
    })
}

/// An object for a slot.
#[tactic(auto, using(crate::proofs::Outcomes::makes))]
pub fn make<'a, L: Ledger>(
    scene: &Scene<'_, 'a>,
    running: &mut Running<'a>,
    slot: &'a Text,
    type_name: &'a Text,
    values: &'a [Expr],
    place: usize,
    steps: &mut Steps<L>,
) -> Result<(), Halt>
    requires { running.old.frames.items ≡ [] }
    ensures does { TasksDo result (steps.new - steps.old)
        (make_does scene.now.contract.now scene.now.view.now
        slot.now type_name.now values.now place running.old.doing) running.new }
    ensures counted { steps.old ≤ steps.new }
    ensures tasks { running.new.tasks.items ≡ running.old.tasks.items }
{
    let values = arguments(scene, running, values, place, steps)?;
    match running.doing.made.room_for(slot.bytes.as_slice()) {
        Some(true) => {
            let object = object(scene, type_name, values)?;
            running.doing.made.put(slot.bytes.as_slice(), object)?;
            Ok(())
        }
        Some(false) => Err(Halt::End(Ending::Filled(place))),
        None => Err(misfit(place)),
    }
}
