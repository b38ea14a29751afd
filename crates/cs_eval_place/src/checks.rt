//! Checks.
ghost use Rattle.std.specs.Prelude.{◌≡◌, IfOk};
ghost use Rattle.cs_eval_law.specs.Checks.{says};
ghost use Rattle.cs_eval_place.specs.Locating.{verdict_at, block_located, is_yes, verdict_of_check};

use crate::ended::Ended;
use crate::statements::block;
use crate::verdict::Verdict;
use cs_base::Memory;
use cs_eval::Scene;
use cs_eval_values::{LentView, Names, fill};
use cs_lang::{ContractTree, Method};
use cs_lang_names::Numbers;
use cs_types::Checked;
use cs_types_kinds::method_number;
use std::alloc::Global;

// What the check of a method says where its names stand for these.
fn answer<'a>(
    scene: &Scene<'_, 'a>,
    method: &'a Method,
    names: Names<'a>,
) -> Result<Verdict, Memory>
    ensures { IfOk result (λ verdict. verdict ≡ verdict_at
        (block_located scene.now.contract.now scene.now.view.now method.now.check names.entry)) }
{
    let mut names = names;
    match block(scene, &mut names, &method.check) {
        Ok(()) => Ok(Verdict::No(None)),
        Err(Ended::Answer(true, _)) => Ok(Verdict::Yes),
        Err(Ended::Answer(false, place)) => Ok(Verdict::No(Some(place))),
        Err(Ended::Trap(place)) => Ok(Verdict::Trap(place)),
        Err(Ended::Memory) => Err(Memory),
    }
}

// What the check of a method of a contract says.
fn verdict_in<'a>(
    alloc: Global,
    contract: &'a ContractTree,
    numbers: &'a Numbers,
    method: &[u8],
    view: &LentView<'a>,
) -> Result<Verdict, Memory>
    ensures { IfOk result (λ verdict. verdict ≡ verdict_of_check contract.now method.now view.now) }
{
    let methods = contract.methods.as_slice();
    let Some(number) = method_number(methods, method) else {
        return Ok(Verdict::No(None));
    };
    let Some(method) = methods.get(number) else {
        return Ok(Verdict::No(None));
    };
    match fill(alloc, contract, method, view, numbers)? {
        Some(names) => {
            let scene = Scene {
                alloc,
                contract,
                view,
            };
            answer(&scene, method, names)
        }
        None => Ok(Verdict::No(None)),
    }
}

/// What the check of a method says of a view, and where. It says yes exactly where `check` does.
pub fn check_verdict<'a>(
    alloc: Global,
    checked: &'a Checked,
    method: &[u8],
    view: &LentView<'a>,
) -> Result<Verdict, Memory>
    ensures verdict { IfOk result (λ verdict. verdict
        ≡ verdict_of_check checked.now.contract method.now view.now) }
    ensures says { IfOk result (λ verdict. is_yes verdict
        ≡ says checked.now.contract method.now view.now) }
{
    let contract = checked.contract().tree();
    verdict_in(alloc, contract, checked.numbers(), method, view)
}
