//! The trial of cases.
ghost use Rattle.std.specs.Prelude.{◌≡◌, ◌+◌, Ok, IfOk, string_bytes};
ghost use Rattle.sha2.specs.Sha256.{sha256};
ghost use Rattle.cs_cases.specs.Text.{cases_of};
ghost use Rattle.cs_trial.specs.Trials.{none_counted, with_wanted, counted, IsTried, CasesTell, sum_text, tally_status, refused_answer, limit_answer, ReadTell, CasesAnswer, answer_of};

use crate::lines::{is_as_wanted, limit_text, put_case, refused_text};
use crate::outcome::Outcome;
use crate::outcomes::tell_case;
use cs_base::{MOST_SCHEDULE, Memory};
use cs_cases::{Asked, Case, CasesError, Refused, Wanted, read_cases};
use cs_tx_value::Digest;
use cs_types::{Checked, position_at};
use sha2::{Digest as Hasher, Sha256};
use std::alloc::{AllocError, Global};

/// What a program answers to a text of cases: the status that it ends with, and what it prints.
#[derive(Drop)]
pub struct Trial {
    pub status: u8,
    pub printed: Vec<u8>,
}

/// How many cases came to what was wanted, and how many didn't.
#[derive(Clone, Copy, Debug, PartialEq, Eq)]
pub struct Counts {
    pub passed: u64,
    pub failed: u64,
}

// One case more. More than can be counted are more than there is memory for.
fn one_more(count: u64) -> Result<u64, Memory>
    ensures { IfOk result (λ n. n ≡ count + 1) }
{
    count.checked_add(1).ok_or(Memory)
}

fn with_wanted(counts: Counts, wanted: Wanted, outcome: Outcome) -> Result<Counts, Memory>
    ensures { IfOk result (λ n. n ≡ with_wanted counts wanted outcome) }
{
    if is_as_wanted(wanted, outcome) {
        return Ok(Counts {
            passed: one_more(counts.passed)?,
            failed: counts.failed,
        });
    }
    Ok(Counts {
        passed: counts.passed,
        failed: one_more(counts.failed)?,
    })
}

fn counted(counts: Counts, asked: &Asked, outcome: Outcome) -> Result<Counts, Memory>
    ensures { IfOk result (λ n. n ≡ counted counts asked.now outcome) }
{
    match asked {
        Asked::Shown => Ok(counts),
        Asked::Made(wanted) => with_wanted(counts, *wanted, outcome),
        Asked::Given(_, _, wanted) => with_wanted(counts, *wanted, outcome),
    }
}

// The line of a case, and what the cases come to with it.
fn try_case(
    alloc: Global,
    checked: &Checked,
    id: &Digest,
    text: &[u8],
    number: u64,
    case: &Case,
    counts: Counts,
    out: &mut Vec<u8>,
) -> Result<Counts, Memory>
    ensures { IfOk result (λ n. IsTried checked.now id.now text.now number case.now
        (out.old.items, counts) (out.new.items, n)) }
{
    let (outcome, made) = tell_case(alloc, checked, id, case)?;
    put_case(
        alloc,
        text,
        number,
        &case.asked,
        outcome,
        made.as_slice(),
        out,
    )?;
    counted(counts, &case.asked, outcome)
}

// The lines of cases, and how many passed and failed.
fn try_cases(
    alloc: Global,
    checked: &Checked,
    id: &Digest,
    text: &[u8],
    cases: &[Case],
    out: &mut Vec<u8>,
) -> Result<Counts, Memory>
    requires { id.now ≡ sha256 text.now }
    ensures { IfOk result (λ n. CasesTell checked.now text.now 1 cases.now
        (out.old.items, none_counted) (out.new.items, n)) }
{
    let mut counts = Counts {
        passed: 0,
        failed: 0,
    };
    for (i, case) in cases.iter().enumerate() {
        counts = try_case(alloc, checked, id, text, i as u64 + 1, case, counts, out)?;
    }
    Ok(counts)
}

fn status_of(failed: u64) -> u8
    ensures { result ≡ tally_status failed }
{
    if failed == 0 { 0 } else { 9 }
}

fn sum_text(alloc: Global, counts: Counts) -> Result<String, AllocError>
    ensures { IfOk result (λ text. string_bytes text ≡ sum_text counts) }
{
    format!(in alloc; "{} passed, {} failed\n", counts.passed, counts.failed)
}

// The answer to cases.
fn answer_cases(
    alloc: Global,
    checked: &Checked,
    id: &Digest,
    text: &[u8],
    cases: &[Case],
) -> Result<Trial, Memory>
    requires { id.now ≡ sha256 text.now }
    ensures { IfOk result (λ trial. ReadTell checked.now text.now (Ok cases.now) (answer_of trial)) }
{
    let mut printed = Vec::new(alloc);
    let counts = try_cases(alloc, checked, id, text, cases, &mut printed)?;
    let sum = sum_text(alloc, counts)?;
    printed.extend_from_slice(sum.as_bytes())?;
    Ok(Trial {
        status: status_of(counts.failed),
        printed,
    })
}

fn refuse(alloc: Global, refused: Refused) -> Result<Trial, Memory>
    ensures { IfOk result (λ trial. answer_of trial ≡ refused_answer refused) }
{
    let line = refused_text(alloc, refused)?;
    Ok(Trial {
        status: 3,
        printed: Vec::from_slice(alloc, line.as_bytes())?,
    })
}

// The refusal of a text of cases that is too long.
fn refuse_long(alloc: Global, cases: &[u8]) -> Result<Trial, Memory>
    ensures { IfOk result (λ trial. answer_of trial ≡ limit_answer cases.now) }
{
    let line = limit_text(alloc, position_at(cases, MOST_SCHEDULE))?;
    Ok(Trial {
        status: 13,
        printed: Vec::from_slice(alloc, line.as_bytes())?,
    })
}

// The answer to a text of cases that isn't too long.
fn answer_text(alloc: Global, checked: &Checked, text: &[u8], cases: &[u8]) -> Result<Trial, Memory>
    ensures { IfOk result (λ trial. ReadTell checked.now text.now
        (cases_of checked.now.contract (sha256 text.now) cases.now) (answer_of trial)) }
{
    let id = Sha256::digest(text);
    match read_cases(alloc, checked.contract().tree(), &id, cases) {
        Ok(cases) => answer_cases(alloc, checked, &id, text, cases.as_slice()),
        Err(CasesError::Bad(refused)) => refuse(alloc, refused),
        Err(CasesError::Memory) => Err(Memory),
    }
}

/// What is told of a text of cases of the contract of this text.
pub fn try_text(
    alloc: Global,
    checked: &Checked,
    text: &[u8],
    cases: &[u8],
) -> Result<Trial, Memory>
    ensures { IfOk result (λ trial. CasesAnswer checked.now text.now cases.now (answer_of trial)) }
{
    if cases.len() > MOST_SCHEDULE {
        return refuse_long(alloc, cases);
    }
    answer_text(alloc, checked, text, cases)
}
