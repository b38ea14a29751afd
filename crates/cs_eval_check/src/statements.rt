//! Running the statements of a check. Nothing goes down a tree by calls of functions: what is left
//! to do stands on a stack.
ghost use Rattle.std.specs.Prelude.{◌≡◌, ◌+◌, ◌-◌, ◌<◌, ◌≤◌, ◌∷◌, [], map, min, max, Ok, IfOk, OnOk, IfSome};
ghost use Rattle.cs_eval_values.specs.Answers.{Stops};
ghost use Rattle.cs_eval.specs.declared.scene.Scene.{Scene as Seeing};
ghost use Rattle.cs_eval.specs.Work.{all_work};
ghost use Rattle.cs_eval_check.specs.declared.task.Task.TheVariants as task_is;
ghost use Rattle.cs_eval_law.specs.Acting.{let_run, set_run, condition as condition_run, for_in_run, for_to_run, answer_run, block_run, all_run, statement_run, action_run};
ghost use Rattle.cs_eval_check.specs.Tasks.{left_in, first_datum, choice_run, left_to, then_left, Decides, TasksAct, TasksRan};
ghost use Rattle.cs_eval.specs.Places.{places};
ghost use Rattle.cs_eval.specs.Blocks.{one_by_one, turns_places, places_of_action, places_of_block, places_of_statement};
ghost use Rattle.cs_eval_check.specs.TaskRoom.{loop_places, places_of_other, task_places, TasksHaveRoom};
ghost use Rattle.cs_eval_check.specs.TaskWork.{most_turns, turns_work, work_of_block, work_of_other, work_of_statement, work_of_action, task_work, loop_work, tasks_work};

use crate::running::Running;
use crate::task::{Loop, Source, Task};
use cs_base::Memory;
use cs_eval::{Scene, evaluate, kind_given};
use cs_eval_values::{Cause, Held, Steps, Stop};
use cs_lang::{Action, Block, Expr, Statement, Text};
use cs_lang_token::{MOST_ITEMS, MOST_TURNS};
use cs_types_kinds::{INT, Kind};
use std::sync::ledger::Ledger;

/// What a loop goes over at a place, if there is more.
#[tactic(auto, using(crate::proofs::Turns::items_left))]
pub fn item<'a>(source: &Source<'a>, at: u16) -> Result<Option<Held<'a>>, Memory>
    ensures found { IfOk result (λ found. found ≡ first_datum (left_in source.now at)) }
    ensures more { IfOk result (λ found. IfSome found (λ _. at < most_turns source.now)) }
    ensures few { IfOk result (λ found. IfSome found (λ _. at < 65535)) }
{
    match source {
        Source::Numbers(end) => {
            if at < *end {
                return Ok(Some(Held::int(i64::from(at))));
            }
            Ok(None)
        }
        Source::Items(list) => {
            if usize::from(at) < MOST_ITEMS {
                return list.item(usize::from(at));
            }
            Ok(None)
        }
    }
}

/// Statements are done next, and then all but so many names end.
#[tactic(auto, using(cs_eval::proofs::Actions::one_at_least))]
fn enter<'a>(running: &mut Running<'a>, statements: &'a [Statement], names: usize)
    requires { TasksHaveRoom (one_by_one (map places_of_statement statements.now) + 1) running.old }
    ensures tasks { running.new.tasks.items
        ≡ task_is.Statements statements.entry ∷ task_is.Leave names ∷ running.old.tasks.items }
    ensures names { running.new.names ≡ running.old.names }
    ensures frames { running.new.frames ≡ running.old.frames }
    ensures room { TasksHaveRoom 0 running.new }
{
    running.tasks.push(Task::Leave(names));
    running.tasks.push(Task::Statements(statements));
}

/// A block is done next.
#[tactic(auto, using(cs_eval::proofs::Actions::block_is))]
fn enter_block<'a>(running: &mut Running<'a>, block: &'a Block)
    requires idle { running.old.frames.items ≡ [] }
    requires room { TasksHaveRoom (places_of_block block.now) running.old }
    ensures acts { (scene : Seeing) → TasksAct scene (Ok result) 0
        (then_left scene running.old.tasks.items
        (block_run scene.contract.now scene.view.now block.now running.old.names)) running.new }
    ensures smaller { tasks_work running.new.tasks.items
        ≡ work_of_block block.now + tasks_work running.old.tasks.items }
    ensures room { TasksHaveRoom 0 running.new }
{
    let names = running.names.len();
    enter(running, block.statements.as_slice(), names);
}

/// A value under a new name.
fn let_name<'a, L: Ledger>(
    scene: &Scene<'_, 'a>,
    running: &mut Running<'a>,
    name: &'a Text,
    value: &'a Expr,
    steps: &mut Steps<L>,
) -> Result<(), Stop>
    requires idle { running.old.frames.items ≡ [] }
    requires room { TasksHaveRoom (places value.now) running.old }
    ensures acts { TasksAct scene.now result (steps.new - steps.old)
        (then_left scene.now running.old.tasks.items
        (let_run scene.now.contract.now scene.now.view.now
        name.now value.now running.old.names)) running.new }
    ensures counted { steps.old ≤ steps.new }
    ensures tasks { running.new.tasks.items ≡ running.old.tasks.items }
    ensures room { OnOk result (TasksHaveRoom 0 running.new) }
{
    let Some(kind) = kind_given(scene, &running.names, value) else {
        return Err(Stop::Trap(Cause::Misfit, name.place));
    };
    let held = evaluate(scene, &running.names, &mut running.frames, value, steps)?;
    running
        .names
        .add(name.bytes.as_slice(), name.place, kind, held)?;
    Ok(())
}

/// Another value under a name.
fn set_name<'a, L: Ledger>(
    scene: &Scene<'_, 'a>,
    running: &mut Running<'a>,
    name: &'a Text,
    value: &'a Expr,
    steps: &mut Steps<L>,
) -> Result<(), Stop>
    requires idle { running.old.frames.items ≡ [] }
    requires room { TasksHaveRoom (places value.now) running.old }
    ensures acts { TasksAct scene.now result (steps.new - steps.old)
        (then_left scene.now running.old.tasks.items
        (set_run scene.now.contract.now scene.now.view.now
        name.now value.now running.old.names)) running.new }
    ensures counted { steps.old ≤ steps.new }
    ensures tasks { running.new.tasks.items ≡ running.old.tasks.items }
    ensures room { OnOk result (TasksHaveRoom 0 running.new) }
{
    let held = evaluate(scene, &running.names, &mut running.frames, value, steps)?;
    running.names.set(name.bytes.as_slice(), name.place, held);
    Ok(())
}

/// Whether a condition holds.
fn holds<'a, L: Ledger>(
    scene: &Scene<'_, 'a>,
    running: &mut Running<'a>,
    condition: &'a Expr,
    place: usize,
    steps: &mut Steps<L>,
) -> Result<bool, Stop>
    requires idle { running.old.frames.items ≡ [] }
    requires room { TasksHaveRoom (places condition.now) running.old }
    ensures decides { Decides result (steps.new - steps.old)
        (condition_run scene.now.contract.now scene.now.view.now
        condition.now place running.old.names) running.new.frames.items }
    ensures counted { steps.old ≤ steps.new }
    ensures names { running.new.names ≡ running.old.names }
    ensures tasks { running.new.tasks.items ≡ running.old.tasks.items }
    ensures most { running.new.frames.most ≡ running.old.frames.most }
    ensures places { running.new.tasks.most ≡ running.old.tasks.most }
{
    let held = evaluate(scene, &running.names, &mut running.frames, condition, steps)?;
    match held.as_bool() {
        Some(truth) => Ok(truth),
        None => Err(Stop::Trap(Cause::Misfit, place)),
    }
}

/// A loop over a list or objects.
#[tactic(auto, using(crate::proofs::Rooms::turns_some))]
fn for_in<'a, L: Ledger>(
    scene: &Scene<'_, 'a>,
    running: &mut Running<'a>,
    name: &'a Text,
    list: &'a Expr,
    each: &'a Block,
    steps: &mut Steps<L>,
) -> Result<(), Stop>
    requires idle { running.old.frames.items ≡ [] }
    requires room { TasksHaveRoom (max (places list.now) (places_of_block each.now + 1)) running.old }
    ensures acts { TasksAct scene.now result (steps.new - steps.old)
        (then_left scene.now running.old.tasks.items
        (for_in_run scene.now.contract.now scene.now.view.now name.now list.now
        (block_run scene.now.contract.now scene.now.view.now each.now)
        running.old.names)) running.new }
    ensures counted { steps.old ≤ steps.new }
    ensures smaller { OnOk result (tasks_work running.new.tasks.items
        ≡ turns_work MOST_ITEMS (work_of_block each.now) + tasks_work running.old.tasks.items) }
    ensures room { OnOk result (TasksHaveRoom 0 running.new) }
{
    let kind = match kind_given(scene, &running.names, list) {
        Some(kind) => kind.item_of(),
        None => None,
    };
    let Some(kind) = kind else {
        return Err(Stop::Trap(Cause::Misfit, name.place));
    };
    let held = evaluate(scene, &running.names, &mut running.frames, list, steps)?;
    if !held.has_items() {
        return Err(Stop::Trap(Cause::Misfit, name.place));
    }
    running.tasks.push(Task::Loop(Loop {
        name: name.bytes.as_slice(),
        offset: name.place,
        kind,
        each,
        source: Source::Items(held),
        at: 0,
    }));
    Ok(())
}

/// A turn of a loop, where there is one more.
#[tactic(auto, using(crate::proofs::Rooms::turns_some, cs_eval::proofs::Actions::block_is))]
fn turn<'a, L: Ledger>(
    scene: &Scene<'_, 'a>,
    running: &mut Running<'a>,
    looping: Loop<'a>,
    steps: &mut Steps<L>,
) -> Result<(), Stop>
    requires idle { running.old.frames.items ≡ [] }
    requires room { TasksHaveRoom (loop_places looping) running.old }
    ensures acts { TasksAct scene.now result (steps.new - steps.old)
        (left_to scene.now (task_is.Loop looping.entry ∷ running.old.tasks.items) running.old.names)
        running.new }
    ensures counted { steps.old ≤ steps.new }
    ensures smaller { OnOk result (tasks_work running.new.tasks.items
        < loop_work looping.entry + tasks_work running.old.tasks.items) }
    ensures room { OnOk result (TasksHaveRoom 0 running.new) }
{
    let Some(held) = item(&looping.source, looping.at)? else {
        return Ok(());
    };
    steps.spend(1);
    let names = running.names.len();
    let Loop {
        name,
        offset,
        kind,
        each,
        source,
        at,
    } = looping;
    running.tasks.push(Task::Loop(Loop {
        name,
        offset,
        kind,
        each,
        source,
        at: at + 1,
    }));
    running.names.add(name, offset, kind, held)?;
    enter(running, each.statements.as_slice(), names);
    Ok(())
}

/// One block where a condition holds, and the other one, if there is one, where it doesn't.
fn choose<'a, L: Ledger>(
    scene: &Scene<'_, 'a>,
    running: &mut Running<'a>,
    condition: &'a Expr,
    place: usize,
    block: &'a Block,
    other: Option<&'a Block>,
    steps: &mut Steps<L>,
) -> Result<(), Stop>
    requires idle { running.old.frames.items ≡ [] }
    requires room { TasksHaveRoom (max (places condition.now)
        (max (places_of_block block.now) (places_of_other other))) running.old }
    ensures acts { TasksAct scene.now result (steps.new - steps.old)
        (then_left scene.now running.old.tasks.items
        (choice_run scene.now.contract.now scene.now.view.now
        condition.now block.now other.entry place running.old.names)) running.new }
    ensures counted { steps.old ≤ steps.new }
    ensures smaller { OnOk result (tasks_work running.new.tasks.items
        ≤ work_of_block block.now + work_of_other other.entry + tasks_work running.old.tasks.items) }
    ensures room { OnOk result (TasksHaveRoom 0 running.new) }
{
    if holds(scene, running, condition, place, steps)? {
        enter_block(running, block);
        return Ok(());
    }
    match other {
        Some(other) => {
            enter_block(running, other);
            Ok(())
        }
        None => Ok(()),
    }
}

/// A loop over numbers.
#[tactic(auto, using(crate::proofs::Rooms::turns_fewer))]
fn for_to<'a>(running: &mut Running<'a>, name: &'a Text, count: u64, each: &'a Block)
    requires idle { running.old.frames.items ≡ [] }
    requires room { TasksHaveRoom (turns_places count (places_of_block each.now)) running.old }
    ensures acts { (scene : Seeing) → TasksAct scene (Ok result) 0
        (then_left scene running.old.tasks.items
        (for_to_run scene.contract.now scene.view.now name.now count
        (block_run scene.contract.now scene.view.now each.now)
        running.old.names)) running.new }
    ensures smaller { tasks_work running.new.tasks.items
        ≡ turns_work (min count MOST_TURNS) (work_of_block each.now)
        + tasks_work running.old.tasks.items }
    ensures room { TasksHaveRoom 0 running.new }
{
    running.tasks.push(Task::Loop(Loop {
        name: name.bytes.as_slice(),
        offset: name.place,
        kind: INT,
        each,
        source: Source::Numbers(count.min(MOST_TURNS) as u16),
        at: 0,
    }));
}

/// The answer of the check.
fn answer<'a, L: Ledger>(
    scene: &Scene<'_, 'a>,
    running: &mut Running<'a>,
    value: &'a Expr,
    place: usize,
    steps: &mut Steps<L>,
) -> Stop
    requires idle { running.old.frames.items ≡ [] }
    requires room { TasksHaveRoom (places value.now) running.old }
    ensures stops { Stops result (steps.new - steps.old)
        (answer_run scene.now.contract.now scene.now.view.now
        value.now place running.old.names) }
    ensures counted { steps.old ≤ steps.new }
{
    match holds(scene, running, value, place, steps) {
        Ok(truth) => Stop::Answer(truth),
        Err(stop) => stop,
    }
}

/// Begins what a statement does.
#[tactic(auto, using(crate::proofs::Actions::actions, crate::proofs::ActionWork::works, cs_eval::proofs::Actions::actions))]
fn act<'a, L: Ledger>(
    scene: &Scene<'_, 'a>,
    running: &mut Running<'a>,
    action: &'a Action,
    place: usize,
    steps: &mut Steps<L>,
) -> Result<(), Stop>
    requires idle { running.old.frames.items ≡ [] }
    requires room { TasksHaveRoom (places_of_action action.now) running.old }
    ensures acts { TasksAct scene.now result (steps.new - steps.old)
        (then_left scene.now running.old.tasks.items
        (action_run scene.now.contract.now scene.now.view.now
        action.now place running.old.names)) running.new }
    ensures counted { steps.old ≤ steps.new }
    ensures smaller { OnOk result (tasks_work running.new.tasks.items
        < work_of_action action.now + tasks_work running.old.tasks.items) }
    ensures room { OnOk result (TasksHaveRoom 0 running.new) }
{
    match action {
        Action::Let(name, value) => let_name(scene, running, name, value, steps),
        Action::Set(name, value) => set_name(scene, running, name, value, steps),
        Action::If(condition, block) => {
            choose(scene, running, condition, place, block, None, steps)
        }
        Action::IfElse(condition, block, other) => {
            choose(scene, running, condition, place, block, Some(other), steps)
        }
        Action::ForIn(name, list, each) => for_in(scene, running, name, list, each, steps),
        Action::ForTo(name, count, each) => {
            for_to(running, name, *count, each);
            Ok(())
        }
        Action::Make(_, _, _) => Err(Stop::Trap(Cause::Misfit, place)),
        Action::Call(_, _, _) => Err(Stop::Trap(Cause::Misfit, place)),
        Action::Answer(value) => Err(answer(scene, running, value, place, steps)),
    }
}

/// The next of statements.
#[tactic(auto, using(cs_eval::proofs::Actions::one_at_least, cs_eval::proofs::Actions::statement_is))]
fn on_statements<'a, L: Ledger>(
    scene: &Scene<'_, 'a>,
    running: &mut Running<'a>,
    statements: &'a [Statement],
    steps: &mut Steps<L>,
) -> Result<(), Stop>
    requires idle { running.old.frames.items ≡ [] }
    requires room { TasksHaveRoom (one_by_one (map places_of_statement statements.now)) running.old }
    ensures acts { TasksAct scene.now result (steps.new - steps.old)
        (then_left scene.now running.old.tasks.items
        (all_run scene.now.contract.now scene.now.view.now
        (map (statement_run scene.now.contract.now scene.now.view.now) statements.now)
        running.old.names)) running.new }
    ensures counted { steps.old ≤ steps.new }
    ensures smaller { OnOk result (tasks_work running.new.tasks.items
        < all_work (map work_of_statement statements.now) + tasks_work running.old.tasks.items) }
    ensures room { OnOk result (TasksHaveRoom 0 running.new) }
{
    match statements {
        [statement, rest @ ..] => {
            running.tasks.push(Task::Statements(rest));
            steps.spend(1);
            act(scene, running, &statement.action, statement.place, steps)
        }
        [] => Ok(()),
    }
}

/// On with what is left to do.
fn go_on<'a, L: Ledger>(
    scene: &Scene<'_, 'a>,
    running: &mut Running<'a>,
    task: Task<'a>,
    steps: &mut Steps<L>,
) -> Result<(), Stop>
    requires idle { running.old.frames.items ≡ [] }
    requires room { TasksHaveRoom (task_places task) running.old }
    ensures acts { TasksAct scene.now result (steps.new - steps.old)
        (left_to scene.now (task.entry ∷ running.old.tasks.items) running.old.names) running.new }
    ensures counted { steps.old ≤ steps.new }
    ensures smaller { OnOk result (tasks_work running.new.tasks.items
        < task_work task.entry + tasks_work running.old.tasks.items) }
    ensures room { OnOk result (TasksHaveRoom 0 running.new) }
{
    match task {
        Task::Statements(statements) => on_statements(scene, running, statements, steps),
        Task::Leave(names) => {
            running.names.leave(names);
            Ok(())
        }
        Task::Loop(looping) => turn(scene, running, looping, steps),
    }
}

/// Runs all that is left to do.
pub fn run<'a, L: Ledger>(
    scene: &Scene<'_, 'a>,
    running: &mut Running<'a>,
    steps: &mut Steps<L>,
) -> Result<(), Stop>
    requires idle { running.old.frames.items ≡ [] }
    requires room { TasksHaveRoom 0 running.old }
    ensures ran { TasksRan result (steps.new - steps.old)
        (left_to scene.now running.old.tasks.items running.old.names) running.new }
    ensures counted { steps.old ≤ steps.new }
{
    while let Some(task) = running.tasks.pop() {
        go_on(scene, running, task, steps)?;
    }
    Ok(())
}
