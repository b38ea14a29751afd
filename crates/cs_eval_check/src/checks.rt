//! Checks.
ghost use Rattle.std.specs.Prelude.{◌≡◌, ◌+◌, ◌*◌, ◌≤◌, OnOk, IfOk};
ghost use Rattle.cs_eval_values.specs.Runs.{spent};
ghost use Rattle.cs_eval_cells.specs.Checks.{check_cells};
ghost use Rattle.cs_eval_law.specs.Acting.{block_run};
ghost use Rattle.cs_eval_law.specs.Checks.{yes_of, says, spends, check_cost, check_places, check_run, IsKinded};

use crate::running::Running;
use crate::statements::run;
use crate::task::Task;
use cs_base::Memory;
use cs_eval::{Scene, Stack, block_places};
use cs_eval_values::{LentView, Names, Steps, Stop, View, fill};
use cs_lang::{ContractTree, Method};
use cs_lang_names::Numbers;
use cs_types::Checked;
use cs_types_kinds::method_number;
use std::alloc::Global;
use std::sync::ledger::Ledger;

/// What the check of a method answers where its names stand for these. Both of its stacks are taken
/// here, with as many places as it fills at most.
fn answer<'a, L: Ledger>(
    scene: &Scene<'_, 'a>,
    method: &'a Method,
    names: Names<'a>,
    steps: &mut Steps<L>,
) -> Result<bool, Memory>
    ensures says { IfOk result (λ yes. yes ≡ yes_of
        (block_run scene.now.contract.now scene.now.view.now method.now.check names.entry)) }
    ensures counts { OnOk result (steps.new ≡ steps.old + spent
        (block_run scene.now.contract.now scene.now.view.now method.now.check names.entry)) }
{
    let most = block_places(&method.check)?;
    let mut running = Running {
        names,
        tasks: Stack::with_capacity(scene.alloc, most)?,
        frames: Stack::with_capacity(scene.alloc, most)?,
    };
    let statements = method.check.statements.as_slice();
    running.tasks.push(Task::Statements(statements));
    match run(scene, &mut running, steps) {
        Err(Stop::Answer(answer)) => Ok(answer),
        Err(Stop::Trap(_, _)) => Ok(false),
        Err(Stop::Memory) => Err(Memory),
        Ok(()) => Ok(false),
    }
}

/// What the check of a method of a contract answers.
fn check_in<'a, L: Ledger>(
    alloc: Global,
    contract: &'a ContractTree,
    numbers: &'a Numbers,
    method: &str,
    view: &LentView<'a>,
    steps: &mut Steps<L>,
) -> Result<bool, Memory>
    ensures says { IfOk result (λ yes. yes ≡ says contract.now method.now view.now) }
    ensures counts { OnOk result (steps.new ≡ steps.old + spends contract.now method.now view.now) }
{
    let methods = contract.methods.as_slice();
    let Some(number) = method_number(methods, method.as_bytes()) else {
        return Ok(false);
    };
    let Some(method) = methods.get(number) else {
        return Ok(false);
    };
    match fill(alloc, contract, method, view, numbers)? {
        Some(names) => {
            let scene = Scene {
                alloc,
                contract,
                view,
            };
            answer(&scene, method, names, steps)
        }
        None => Ok(false),
    }
}

/// `check` of a view that is lent.
#[tactic(auto, using(cs_eval_law::proofs::Kept::lawful, cs_eval_cells::proofs::Celled::cells_within))]
pub fn check_lent<'a, L: Ledger>(
    alloc: Global,
    checked: &'a Checked,
    method: &str,
    view: &LentView<'a>,
    steps: &mut Steps<L>,
) -> Result<bool, Memory>
    ensures says { IfOk result (λ yes. yes ≡ says checked.now.contract method.now view.now) }
    ensures counts { OnOk result
        (steps.new ≡ steps.old + spends checked.now.contract method.now view.now) }
    ensures bounded { spends checked.now.contract method.now view.now
        ≤ check_cost checked.now method.now }
    ensures kinded { IsKinded (check_run checked.now.contract method.now view.now) }
    ensures roomy { check_places checked.now.contract method.now
        ≤ 2 * check_cost checked.now method.now + 2 }
    ensures small { check_cells checked.now.contract method.now
        ≤ 4 * check_cost checked.now method.now }
{
    let contract = checked.contract().tree();
    check_in(alloc, contract, checked.numbers(), method, view, steps)
}

/// Whether the check of a method says yes to a view. One that isn't there, or that the view doesn't
/// fit, says no and spends nothing; one that traps or ends without an answer says no. Its two stacks
/// are taken at its start, and no push wants memory.
#[tactic(auto, using(cs_eval_law::proofs::Kept::lawful, cs_eval_cells::proofs::Celled::cells_within))]
pub fn check<'a, L: Ledger>(
    alloc: Global,
    checked: &'a Checked,
    method: &str,
    view: &'a View,
    steps: &mut Steps<L>,
) -> Result<bool, Memory>
    ensures says { IfOk result (λ yes. yes ≡ says checked.now.contract method.now view.now) }
    ensures counts { OnOk result
        (steps.new ≡ steps.old + spends checked.now.contract method.now view.now) }
    ensures bounded { spends checked.now.contract method.now view.now
        ≤ check_cost checked.now method.now }
    ensures kinded { IsKinded (check_run checked.now.contract method.now view.now) }
    ensures roomy { check_places checked.now.contract method.now
        ≤ 2 * check_cost checked.now method.now + 2 }
    ensures small { check_cells checked.now.contract method.now
        ≤ 4 * check_cost checked.now method.now }
{
    let contract = checked.contract().tree();
    let lent = view.lend(alloc)?;
    check_in(alloc, contract, checked.numbers(), method, &lent, steps)
}
