//! What is printed of a verdict.
ghost use Rattle.std.specs.Prelude.{◌≡◌, Some, IfOk, string_bytes};
ghost use Rattle.std.specs.List.{flat_map};
ghost use Rattle.cs_tx.specs.Lines.{tx_line};
ghost use Rattle.cs_audit.specs.Printed.{rule_word, shard_text, audit_fault_text, yes_text, verdict_text as text_of, verdict_status as status_of};

use cs_audit_rules::{Fault, Rule, Verdict};
use cs_base::{Memory, print_bytes};
use cs_tx::Digest;
use std::alloc::Global;
use std::fmt;

/// The word of a rule.
#[derive(Clone, Copy)]
struct RuleWord(Rule);

impl fmt::Display for RuleWord {
    ghost output = { λ word. Some (rule_word word.0) };

    fn fmt<W: fmt::Write>(&self, f: &mut fmt::Formatter<W>) -> fmt::Result {
        f.write_str(match self.0 {
            Rule::Slot => "slot",
            Rule::Form => "form",
            Rule::Judge => "judge",
            Rule::Result => "result",
            Rule::Head => "head",
            Rule::Support => "support",
            Rule::History => "history",
        })
    }
}

/// The status of a program that answers so.
pub fn verdict_status(verdict: &Verdict) -> u8
    ensures { result ≡ status_of verdict.now }
{
    match verdict {
        Verdict::Yes(_) => 0,
        Verdict::No(_) => 9,
    }
}

/// The lines of a verdict: yes, with the transactions of the history; or the broken rule.
pub fn verdict_text(alloc: Global, verdict: &Verdict) -> Result<String, Memory>
    ensures { IfOk result (λ text. string_bytes text ≡ text_of verdict.now) }
{
    match verdict {
        Verdict::Yes(history) => yes_text(alloc, history.as_slice()),
        Verdict::No(fault) => fault_text(alloc, *fault),
    }
}

fn shard_text(alloc: Global, shard: Option<u16>) -> Result<String, Memory>
    ensures { IfOk result (λ text. string_bytes text ≡ shard_text shard) }
{
    match shard {
        Some(shard) => Ok(format!(in alloc; "{shard}")?),
        None => Ok(String::from_str(alloc, "-")?),
    }
}

fn fault_text(alloc: Global, fault: Fault) -> Result<String, Memory>
    ensures { IfOk result (λ text. string_bytes text ≡ audit_fault_text fault) }
{
    let rule = RuleWord(fault.rule);
    let shard = shard_text(alloc, fault.shard)?;
    let slot = fault.slot;
    Ok(format!(in alloc; "no {rule} {shard} {slot}\n")?)
}

fn tx_lines(alloc: Global, history: &[Digest]) -> Result<String, Memory>
    ensures { IfOk result (λ text. string_bytes text ≡ flat_map tx_line history.now) }
{
    let mut text = String::new(alloc);
    for digest in history {
        let digest = print_bytes(alloc, digest.as_slice())?;
        let line = format!(in alloc; "tx {digest}\n")?;
        text.push_str(&line)?;
    }
    Ok(text)
}

fn yes_text(alloc: Global, history: &[Digest]) -> Result<String, Memory>
    ensures { IfOk result (λ text. string_bytes text ≡ yes_text history.now) }
{
    let count = history.len();
    let mut text = format!(in alloc; "yes {count}\n")?;
    let lines = tx_lines(alloc, history)?;
    text.push_str(&lines)?;
    Ok(text)
}
