//! Running procedures. A method that is called runs below the statement that calls it, and stands
//! above it in the text, so calls nest no deeper than there are methods.
ghost use Rattle.std.specs.Prelude.{◌≡◌, ◌+◌, ◌-◌, ◌<◌, ◌≤◌, ◌∷◌, [], map, OnOk};
ghost use Rattle.cs_eval.specs.Work.{all_work};
ghost use Rattle.cs_eval_check.specs.TaskWork.{work_of_statement, work_of_action, task_work, tasks_work};
ghost use Rattle.cs_proc_parts.specs.Courses.{CourseComes};
ghost use Rattle.cs_proc.specs.Acting.{call_does, all_do, statement_does, action_does};
ghost use Rattle.cs_proc.specs.Methods.{method_run};
ghost use Rattle.cs_proc.specs.Tasks.{calls_at, rest_of_procedure, then_rest_of_procedure, TasksDo, Acts, FindsMethod};

use crate::binding::call_back;
use crate::procedures_running::Running;
use crate::statements::{
    arguments, choose, enter_block, for_in, for_to, let_name, make, misfit, set_name, turn,
};
use cs_base::Sequence;
use cs_eval::{Scene, Stack};
use cs_eval_check::Task;
use cs_eval_values::Steps;
use cs_lang::{Action, Expr, Method, Statement, Text};
use cs_proc_parts::{Ending, Halt, Progress, close, open};
use cs_tx_value::Value;
use std::sync::ledger::Ledger;

/// The method of this name among the first so many, and how many stand above it.
#[tactic(auto, using(crate::proofs::Finding::found_none))]
fn find<'a>(scene: &Scene<'_, 'a>, above: usize, name: &[u8]) -> Option<(usize, &'a Method)>
    ensures { FindsMethod scene.now above name.now result }
{
    let methods = scene.contract.methods.as_slice();
    let mut left = above;
    while left > 0 {
        left -= 1;
        if let Some(method) = methods.get(left) {
            if method.name.bytes.as_slice() == name {
                return Some((left, method));
            }
        }
    }
    None
}

/// A call of a method above.
#[cycle(procedures)]
fn call<'a, L: Ledger>(
    scene: &Scene<'_, 'a>,
    above: usize,
    running: &mut Running<'a>,
    names: &'a [Text],
    name: &'a Text,
    expressions: &'a [Expr],
    place: usize,
    steps: &mut Steps<L>,
) -> Result<(), Halt>
    requires { running.old.frames.items ≡ [] }
    ensures does { TasksDo result (steps.new - steps.old)
        (call_does scene.now.contract.now scene.now.view.now (calls_at scene.now above)
        names.now name.now expressions.now place running.old.doing) running.new }
    ensures counted { steps.old ≤ steps.new }
    ensures tasks { running.new.tasks.items ≡ running.old.tasks.items }
{
    let values = arguments(scene, running, expressions, place, steps)?;
    let Some((number, method)) = find(scene, above, name.bytes.as_slice()) else {
        return Err(misfit(name.place));
    };
    let progress = running.doing.progress.take(scene.alloc);
    let progress = run_procedure(scene, number, method, values, progress, steps)?;
    let fields = method.returns.as_slice();
    call_back(
        scene.alloc,
        names,
        fields,
        place,
        &mut running.doing,
        progress,
    )
}

/// Begins what a statement does.
#[cycle(procedures)]
#[tactic(auto, using(crate::proofs::Actions::actions, cs_eval_check::proofs::ActionWork::works, crate::proofs::Turns::does_acts))]
fn act<'a, L: Ledger>(
    scene: &Scene<'_, 'a>,
    above: usize,
    running: &mut Running<'a>,
    action: &'a Action,
    place: usize,
    steps: &mut Steps<L>,
) -> Result<(), Halt>
    requires { running.old.frames.items ≡ [] }
    ensures acts { Acts scene.now above result (steps.new - steps.old)
        (then_rest_of_procedure scene.now above running.old.tasks.items
        (action_does scene.now.contract.now scene.now.view.now (calls_at scene.now above)
        action.now place running.old.doing)) running.new }
    ensures counted { steps.old ≤ steps.new }
    ensures smaller { OnOk result (tasks_work running.new.tasks.items
        < work_of_action action.now + tasks_work running.old.tasks.items) }
{
    match action {
        Action::Let(name, value) => let_name(scene, running, name, value, steps),
        Action::Set(name, value) => set_name(scene, running, name, value, steps),
        Action::If(condition, block) => {
            choose(scene, running, condition, place, block, None, steps)
        }
        Action::IfElse(condition, block, other) => {
            choose(scene, running, condition, place, block, Some(other), steps)
        }
        Action::ForIn(name, list, each) => for_in(scene, running, name, list, each, steps),
        Action::ForTo(name, count, each) => for_to(running, name, *count, each),
        Action::Make(slot, object, values) => {
            make(
                scene,
                running,
                slot,
                object,
                values.as_slice(),
                place,
                steps,
            )
        }
        Action::Call(names, name, values) => call(
            scene,
            above,
            running,
            names.as_slice(),
            name,
            values.as_slice(),
            place,
            steps,
        ),
        Action::Answer(_) => Err(misfit(place)),
    }
}

/// The next of statements.
#[cycle(procedures)]
fn on_statements<'a, L: Ledger>(
    scene: &Scene<'_, 'a>,
    above: usize,
    running: &mut Running<'a>,
    statements: &'a [Statement],
    steps: &mut Steps<L>,
) -> Result<(), Halt>
    requires { running.old.frames.items ≡ [] }
    ensures acts { Acts scene.now above result (steps.new - steps.old)
        (then_rest_of_procedure scene.now above running.old.tasks.items
        (all_do scene.now.contract.now scene.now.view.now (calls_at scene.now above)
        (map (statement_does scene.now.contract.now scene.now.view.now (calls_at scene.now above))
        statements.now) running.old.doing)) running.new }
    ensures counted { steps.old ≤ steps.new }
    ensures smaller { OnOk result (tasks_work running.new.tasks.items
        < all_work (map work_of_statement statements.now) + tasks_work running.old.tasks.items) }
{
    match statements {
        [statement, rest @ ..] => {
            running.tasks.push_growing(Task::Statements(rest))?;
            steps.spend(1);
            act(
                scene,
                above,
                running,
                &statement.action,
                statement.place,
                steps,
            )
        }
        [] => Ok(()),
    }
}

/// On with what is left to do.
#[cycle(procedures)]
fn go_on<'a, L: Ledger>(
    scene: &Scene<'_, 'a>,
    above: usize,
    running: &mut Running<'a>,
    task: Task<'a>,
    steps: &mut Steps<L>,
) -> Result<(), Halt>
    requires { running.old.frames.items ≡ [] }
    ensures acts { Acts scene.now above result (steps.new - steps.old)
        (rest_of_procedure scene.now above (task.entry ∷ running.old.tasks.items) running.old.doing) running.new }
    ensures counted { steps.old ≤ steps.new }
    ensures smaller { OnOk result (tasks_work running.new.tasks.items
        < task_work task.entry + tasks_work running.old.tasks.items) }
{
    match task {
        Task::Statements(statements) => on_statements(scene, above, running, statements, steps),
        Task::Leave(names) => {
            running.doing.names.leave(names);
            Ok(())
        }
        Task::Loop(looping) => turn(scene, running, looping, steps),
    }
}

/// Runs all that is left to do.
#[cycle(procedures)]
fn run<'a, L: Ledger>(
    scene: &Scene<'_, 'a>,
    above: usize,
    running: &mut Running<'a>,
    steps: &mut Steps<L>,
) -> Result<(), Halt>
    requires { running.old.frames.items ≡ [] }
    ensures does { TasksDo result (steps.new - steps.old)
        (rest_of_procedure scene.now above running.old.tasks.items running.old.doing) running.new }
    ensures counted { steps.old ≤ steps.new }
{
    while let Some(task) = running.tasks.pop() {
        go_on(scene, above, running, task, steps)?;
    }
    Ok(())
}

/// Runs a method that has so many others above it, the ones that it can call: it takes its objects
/// from the front of those that are left, and its trace comes behind those of the methods that it
/// calls.
#[cycle(procedures)]
pub fn run_procedure<'a, L: Ledger>(
    scene: &Scene<'_, 'a>,
    above: usize,
    method: &'a Method,
    arguments: Sequence<Value>,
    progress: Progress<'a>,
    steps: &mut Steps<L>,
) -> Result<Progress<'a>, Halt>
    ensures comes { CourseComes result (steps.new - steps.old)
        (method_run scene.now.contract.now scene.now.view.now (calls_at scene.now above)
        method.now arguments progress.entry) }
    ensures counted { steps.old ≤ steps.new }
{
    let alloc = scene.alloc;
    let id = scene.view.contract();
    let types = scene.contract.types.as_slice();
    let Some(opened) = open(alloc, id, types, method, arguments, progress)? else {
        return Err(Halt::End(Ending::Missing));
    };
    let mut running = Running {
        doing: opened.doing,
        tasks: Stack::with_capacity(alloc, 0)?,
        frames: Stack::with_capacity(alloc, 0)?,
    };
    enter_block(&mut running, &method.procedure)?;
    run(scene, above, &mut running, steps)?;
    close(alloc, id, method, opened.front, running.doing)
}
