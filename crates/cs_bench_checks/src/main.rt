//! Runs checks of contracts many times over, for bench/checks.sh, which times them.
//!
//! Words: `check PART TURNS COUNT` runs a check of so many times 100 turns of a loop, at most 1,024, so many times, and
//! `plain` runs it by the plain evaluator of its trials; the part, done over and over, is `compare` or `copy`. It prints
//! what one check may cost. `claim rule COUNT` judges a claim of `hashlock` so many times by the rule, and `claim text COUNT`
//! by a contract that says the same; it prints how many were approved. The status is 0, or 1 where not every one said yes, or
//! 2 for other words, or 8 for want of memory.
#![tactic(auto)]

mod checks;
mod claims;
mod texts;

use checks::{Runner, check_often};
use claims::{Sayer, judge_often};
use cs_base::Memory;
use std::process::ExitCode;
use std::{env, io};
use texts::Part;

/// Everything was done.
const DONE: u8 = 0;

/// Not every check said yes.
const NOT_ALL: u8 = 1;

/// The words are none that are known.
const OTHER_WORDS: u8 = 2;

/// What is done, and how often.
#[derive(Clone, Copy)]
enum Order {
    Check(Checked),
    Claim(Sayer, u32),
}

/// Which check is run by whom, and how often.
#[derive(Clone, Copy)]
struct Checked {
    runner: Runner,
    part: Part,
    turns: u32,
    count: u32,
}

fn main(rt: HostRuntime) -> ExitCode {
    let words = match read_words(&rt) {
        Ok(words) => words,
        Err(_) => return ExitCode::from(OTHER_WORDS),
    };
    let Some(order) = order_of(words.as_slice()) else {
        return ExitCode::from(OTHER_WORDS);
    };
    match run(&rt, order) {
        Ok(status) => ExitCode::from(status),
        Err(_) => ExitCode::from(8),
    }
}

// The words behind the program's name.
fn read_words(rt: &HostRuntime) -> io::Result<Vec<String>> {
    let mut words = Vec::new(rt.alloc());
    for word in env::args(rt)?.skip(1) {
        words.push(word)?;
    }
    Ok(words)
}

fn order_of(words: &[String]) -> Option<Order> {
    match words.len() {
        3 if words[0].as_str() == "claim" => Some(Order::Claim(
            sayer_of(&words[1])?,
            number(&words[2])?,
        )),
        4 => Some(Order::Check(Checked {
            runner: runner_of(&words[0])?,
            part: part_of(&words[1])?,
            turns: number(&words[2])?,
            count: number(&words[3])?,
        })),
        _ => None,
    }
}

fn sayer_of(word: &str) -> Option<Sayer> {
    match word {
        "rule" => Some(Sayer::Rule),
        "text" => Some(Sayer::Text),
        _ => None,
    }
}

fn runner_of(word: &str) -> Option<Runner> {
    match word {
        "check" => Some(Runner::Machine),
        "plain" => Some(Runner::Plain),
        _ => None,
    }
}

fn part_of(word: &str) -> Option<Part> {
    match word {
        "compare" => Some(Part::Compare),
        "copy" => Some(Part::Copy),
        _ => None,
    }
}

fn number(word: &str) -> Option<u32> {
    word.parse::<u32>().ok()
}

fn run(rt: &HostRuntime, order: Order) -> Result<u8, Memory> {
    match order {
        Order::Check(checked) => run_check(rt, checked),
        Order::Claim(sayer, count) => run_claim(rt, sayer, count),
    }
}

fn run_claim(rt: &HostRuntime, sayer: Sayer, count: u32) -> Result<u8, Memory> {
    let yes = judge_often(rt.alloc(), sayer, count)?;
    let printed = println!(rt; "{yes}");
    Ok(if printed.is_ok() && yes == count {
        DONE
    } else {
        NOT_ALL
    })
}

fn run_check(rt: &HostRuntime, checked: Checked) -> Result<u8, Memory> {
    let Checked {
        runner,
        part,
        turns,
        count,
    } = checked;
    let Some(checks) = check_often(rt.alloc(), runner, part, turns, count)? else {
        return Ok(NOT_ALL);
    };
    let printed = println!(rt; "{}", checks.cost);
    Ok(if printed.is_ok() && checks.yes == count {
        DONE
    } else {
        NOT_ALL
    })
}
