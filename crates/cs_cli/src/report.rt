//! Reports of contract texts.
ghost use Rattle.std.specs.Prelude.{◌≡◌, ◌++◌, List, Ok, OnOk, IfOk, string_bytes};
ghost use Rattle.cs_lang.specs.declared.tree.ContractTree.{ContractTree};
ghost use Rattle.cs_lang.specs.Texts.{IsContract};
ghost use Rattle.cs_types_kinds.specs.declared.scope.Costs.{Costs as CostsOf};
ghost use Rattle.cs_types.specs.Accepted.{accepted_costs};
ghost use Rattle.cs_cli.specs.Reports.{costs_text, method_line, method_lines, description, described, accepted_answer, refused_text, fault_answer, IsReport, report_answer};

use cs_base::{Memory, print_bytes};
use cs_explain::{explained_line, put_notes};
use cs_lang::Method;
use cs_lang_print::print;
use cs_types::{Checked, Costs, Fault, Unjudged, judged};
use sha2::{Digest as Hasher, Sha256};
use std::alloc::{AllocError, Global};

/// What a program answers to a text: the status that it ends with, and what it prints.
#[derive(Drop)]
pub struct Report {
    pub status: u8,
    pub printed: Vec<u8>,
}

/// How a contract is told of.
#[derive(Clone, Copy, Debug, PartialEq, Eq)]
pub struct ContractMode {
    /// One that is accepted by the text that the printer gives it.
    pub printing: bool,
    /// A fault with what stands at its place and what could, else with notes behind the costs.
    pub explaining: bool,
}

/// What is told of a contract text. Of one that is accepted, its id and what the bodies of its
/// methods cost at most, and notes where they are asked for; or, where it is to be printed, the text
/// that the printer gives it, whose id is another where its own text has other blanks. Of another,
/// the line and column of its first fault, with what explains it where that is asked for.
pub fn report_on(alloc: Global, mode: ContractMode, text: &[u8]) -> Result<Report, Memory>
    ensures report { IfOk result (λ report. IsReport mode text.now (report_answer report)) }
    // What is accepted by its definition is told so.
    ensures only { (contract : ContractTree) (costs : List CostsOf) → IsContract text.now contract
        → accepted_costs contract ≡ Ok costs
        → IfOk result (λ report. report_answer report ≡ accepted_answer mode text.now contract costs) }
{
    match judged(alloc, text) {
        Ok(checked) => accepted(alloc, mode, text, &checked),
        Err(Unjudged::Faulty(fault)) => refused(alloc, mode, text, fault),
        Err(Unjudged::Memory) => Err(Memory),
    }
}

fn refused(alloc: Global, mode: ContractMode, text: &[u8], fault: Fault) -> Result<Report, Memory>
    ensures { IfOk result (λ report. report_answer report ≡ fault_answer mode text.now fault) }
{
    Ok(Report {
        status: fault.status(),
        printed: fault_line(alloc, mode.explaining, text, fault)?,
    })
}

// The line of a fault, with what explains it where that is asked for.
fn fault_line(alloc: Global, explaining: bool, text: &[u8], fault: Fault) -> Result<Vec<u8>, Memory>
    ensures { IfOk result (λ line. line.items ≡ refused_text explaining text.now fault) }
{
    if explaining {
        return explained_line(alloc, text, fault);
    }
    let line = fault.line(alloc, text)?;
    Ok(Vec::from_slice(alloc, line.as_bytes())?)
}

fn accepted(
    alloc: Global,
    mode: ContractMode,
    text: &[u8],
    checked: &Checked,
) -> Result<Report, Memory>
    ensures { IfOk result (λ report. report_answer report
        ≡ accepted_answer mode text.now checked.now.contract checked.now.costs) }
{
    let mut printed = Vec::new(alloc);
    if mode.printing {
        print(alloc, checked.contract(), &mut printed)?;
    } else {
        describe_so(alloc, mode.explaining, text, checked, &mut printed)?;
    }
    Ok(Report { status: 0, printed })
}

// Appends the description of the contract that a text is, with notes behind it where they are asked
// for.
fn describe_so(
    alloc: Global,
    noted: bool,
    text: &[u8],
    checked: &Checked,
    out: &mut Vec<u8>,
) -> Result<(), Memory>
    ensures { OnOk result (out.new.items
        ≡ out.old.items ++ described noted text.now checked.now.contract checked.now.costs) }
{
    describe(alloc, text, checked, out)?;
    if noted {
        put_notes(alloc, text, checked.contract().tree(), out)?;
    }
    Ok(())
}

// Appends the id of the contract that a text is, and a line for each method.
fn describe(alloc: Global, text: &[u8], checked: &Checked, out: &mut Vec<u8>) -> Result<(), Memory>
    ensures { OnOk result (out.new.items
        ≡ out.old.items ++ description text.now checked.now.contract checked.now.costs) }
{
    let id = print_bytes(alloc, &Sha256::digest(text))?;
    out.extend_from_slice(b"contract ")?;
    out.extend_from_slice(id.as_bytes())?;
    out.push(b'\n')?;
    let tree = checked.contract().tree();
    put_methods(alloc, tree.methods.as_slice(), checked.costs(), out)
}

fn put_methods(
    alloc: Global,
    methods: &[Method],
    costs: &[Costs],
    out: &mut Vec<u8>,
) -> Result<(), Memory>
    ensures { OnOk result (out.new.items
        ≡ out.old.items ++ method_lines methods.now costs.now) }
{
    for (method, cost) in methods.iter().zip(costs) {
        put_method(alloc, method.name.bytes.as_slice(), *cost, out)?;
    }
    Ok(())
}

#[tactic(auto, using(crate::proofs::Lines::thrice))]
fn put_method(alloc: Global, name: &[u8], cost: Costs, out: &mut Vec<u8>) -> Result<(), Memory>
    ensures { OnOk result (out.new.items ≡ out.old.items ++ method_line name.now cost) }
{
    let costs = print_costs(alloc, cost)?;
    out.extend_from_slice(b"method ")?;
    out.extend_from_slice(name)?;
    out.extend_from_slice(costs.as_bytes())?;
    Ok(())
}

// The end of a method's line.
fn print_costs(alloc: Global, cost: Costs) -> Result<String, AllocError>
    ensures { IfOk result (λ text. string_bytes text ≡ costs_text cost) }
{
    format!(in alloc; " procedure {} check {}\n", cost.procedure, cost.check)
}
