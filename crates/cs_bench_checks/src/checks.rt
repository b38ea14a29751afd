//! Checks that do one thing over and over, by `check` and by the plain evaluator of its trials.
ghost use Rattle.std.specs.Prelude.{◌≡◌, ◌<◌};

use crate::texts::{Part, text_of};
use cs_base::{Memory, Sequence};
use cs_eval_check::check;
use cs_eval_values::{Steps, View};
use cs_lang::parse;
use cs_test_eval::run;
use cs_types::{Checked, accept};
use std::alloc::Global;
use std::marker::Brand;
use std::sync::ledger::{Blank, Ledger};

/// Who runs the check.
#[derive(Clone, Copy)]
pub enum Runner {
    Machine,
    Plain,
}

/// What a check may cost, and how many said yes.
#[derive(Clone, Copy)]
pub struct Checks {
    pub cost: u64,
    pub yes: u32,
}

fn empty_view(alloc: Global) -> View {
    View {
        contract: [0; 32],
        inputs: Sequence::new(alloc),
        reads: Sequence::new(alloc),
        params: Sequence::new(alloc),
        outputs: Sequence::new(alloc),
        returns: Sequence::new(alloc),
        deps: Sequence::new(alloc),
    }
}

fn counted<L: Ledger>(
    alloc: Global,
    checked: &Checked,
    view: &View,
    blank: Blank,
) -> Result<bool, Memory>
    requires name { blank.name ≡ L.name }
    requires parts { blank.parts ≡ L.parts }
    requires some { 0 < L.parts }
{
    let mut steps: Steps<L> = Steps::new(blank);
    check(alloc, checked, "m", view, &mut steps)
}

fn says(alloc: Global, checked: &Checked, view: &View) -> Result<bool, Memory> {
    counted::<Brand>(alloc, checked, view, Blank::new(1))
}

fn says_plainly(alloc: Global, checked: &Checked, view: &View) -> Result<bool, Memory> {
    let contract = checked.contract().tree();
    match contract.methods.as_slice().first() {
        Some(method) => Ok(run(alloc, contract, method, view)?.says),
        None => Ok(false),
    }
}

fn says_by(alloc: Global, runner: Runner, checked: &Checked, view: &View) -> Result<bool, Memory> {
    match runner {
        Runner::Machine => says(alloc, checked, view),
        Runner::Plain => says_plainly(alloc, checked, view),
    }
}

// How often it says yes.
fn count_yes(alloc: Global, runner: Runner, checked: &Checked, count: u32) -> Result<u32, Memory> {
    let view = empty_view(alloc);
    let mut yes: u32 = 0;
    for _ in 0..count {
        if says_by(alloc, runner, checked, &view)? {
            yes = yes.saturating_add(1);
        }
    }
    Ok(yes)
}

// The contract of a text, where it is one that is accepted.
fn accepted(alloc: Global, text: &[u8]) -> Option<Checked> {
    accept(alloc, parse(alloc, text).ok()?).ok()
}

/// Runs a check of so many times 100 turns of a loop so often, where it is accepted.
pub fn check_often(
    alloc: Global,
    runner: Runner,
    part: Part,
    turns: u32,
    count: u32,
) -> Result<Option<Checks>, Memory> {
    let text = text_of(alloc, part, turns)?;
    let Some(checked) = accepted(alloc, text.as_slice()) else {
        return Ok(None);
    };
    let cost = match checked.costs().first() {
        Some(costs) => costs.check,
        None => 0,
    };
    let yes = count_yes(alloc, runner, &checked, count)?;
    Ok(Some(Checks { cost, yes }))
}
