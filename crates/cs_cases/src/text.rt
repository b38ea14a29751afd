//! Cases, read of a text.
ghost use Rattle.std.specs.Prelude.{◌≡◌, Some};
ghost use Rattle.cs_cases.specs.Text.{uncommented, line_read, case_of_tokens, case_judged, cases_behind, cases_of, GivesLine, GivesCases, MovesCases};

use crate::case::Case;
use crate::grammar::case;
use crate::judging::cause_of;
use cs_base::{Sequence, split_at_byte};
use cs_lang::ContractTree;
use cs_lang_token::{Cursor, LexError, Stop, Token, tokens_of};
use cs_tx_value::Digest;
use std::alloc::Global;

/// Why a line is no case.
#[derive(Clone, Copy, Debug, PartialEq, Eq)]
pub enum Cause {
    /// No case is spelled so.
    Syntax,
    /// The contract has no such method.
    Method,
    /// The contract has no such type, or its fields are others.
    Object,
}

/// The first line that is no case, numbered from 1, and why.
#[derive(Clone, Copy, Debug, PartialEq, Eq)]
pub struct Refused {
    pub line: u64,
    pub cause: Cause,
}

/// Why a line gives nothing.
#[derive(Clone, Copy, Debug, PartialEq, Eq)]
pub enum LineError {
    /// There was not enough memory.
    Memory,
    /// It is no case.
    Bad(Cause),
}

/// Why a text gives no cases.
#[derive(Clone, Copy, Debug, PartialEq, Eq)]
pub enum CasesError {
    /// There was not enough memory.
    Memory,
    /// It has a line that is no case.
    Bad(Refused),
}

// What stands before the first `#`.
fn uncommented(line: &[u8]) -> &[u8]
    ensures { result.now ≡ uncommented line.now }
{
    match split_at_byte(line, b'#') {
        Some((front, _)) => front,
        None => line,
    }
}

// The case that tokens spell, where it is of the contract.
fn case_in(
    alloc: Global,
    contract: &ContractTree,
    id: &Digest,
    tokens: &[Token],
) -> Result<Option<Case>, LineError>
    ensures { GivesLine result (case_of_tokens contract.now id.now (Some tokens.now)) }
{
    if tokens.is_empty() {
        return Ok(None);
    }
    let mut cursor = Cursor::new(tokens);
    match case(alloc, id, &mut cursor) {
        Ok(found) => {
            if cursor.len() > 0 {
                return Err(LineError::Bad(Cause::Syntax));
            }
            unless_caused(contract, found)
        }
        Err(Stop::Syntax) => Err(LineError::Bad(Cause::Syntax)),
        Err(Stop::Memory) => Err(LineError::Memory),
    }
}

fn unless_caused(contract: &ContractTree, found: Case) -> Result<Option<Case>, LineError>
    ensures { GivesLine result (case_judged contract.now (Some found)) }
{
    match cause_of(contract, &found) {
        None => Ok(Some(found)),
        Some(cause) => Err(LineError::Bad(cause)),
    }
}

// The case of a line, if there is one.
fn line_case(
    alloc: Global,
    contract: &ContractTree,
    id: &Digest,
    line: &[u8],
) -> Result<Option<Case>, LineError>
    ensures { GivesLine result (line_read contract.now id.now line.now) }
{
    match tokens_of(alloc, uncommented(line)) {
        Ok(tokens) => case_in(alloc, contract, id, tokens.as_slice()),
        Err(LexError::Bad(_)) => Err(LineError::Bad(Cause::Syntax)),
        Err(LexError::Memory) => Err(LineError::Memory),
    }
}

// Takes the line of this number.
fn take_line(
    alloc: Global,
    contract: &ContractTree,
    id: &Digest,
    number: u64,
    line: &[u8],
    cases: &mut Sequence<Case>,
) -> Result<(), CasesError>
    ensures { MovesCases result cases.new
        (cases_behind contract.now id.now number line.now cases.old) }
{
    match line_case(alloc, contract, id, line) {
        Ok(None) => Ok(()),
        Ok(Some(found)) => match cases.push(found) {
            Ok(()) => Ok(()),
            Err(_) => Err(CasesError::Memory),
        },
        Err(LineError::Bad(cause)) => Err(CasesError::Bad(Refused {
            line: number,
            cause,
        })),
        Err(LineError::Memory) => Err(CasesError::Memory),
    }
}

/// The cases of the contract with this id, or the first line that is none. A line without tokens is
/// passed over, and so is what stands behind `#`.
pub fn read_cases(
    alloc: Global,
    contract: &ContractTree,
    id: &Digest,
    text: &[u8],
) -> Result<Sequence<Case>, CasesError>
    ensures { GivesCases result (cases_of contract.now id.now text.now) }
{
    let mut cases = Sequence::new(alloc);
    let mut number = 1;
    let mut rest = text;
    while let Some((line, after)) = split_at_byte(rest, b'\n') {
        take_line(alloc, contract, id, number, line, &mut cases)?;
        rest = after;
        number += 1;
    }
    take_line(alloc, contract, id, number, rest, &mut cases)?;
    Ok(cases)
}
