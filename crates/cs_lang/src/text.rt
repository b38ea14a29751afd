//! Reading whole texts.
ghost use Rattle.std.specs.Prelude.{◌≡◌, true, IfOk, IfErr};
ghost use Rattle.cs_lang_token.specs.Texts.{IsText};
ghost use Rattle.cs_lang.specs.Rules.{contract as Spelled};
ghost use Rattle.cs_lang.specs.Fits.{contract_fits};
ghost use Rattle.cs_lang.specs.Texts.{AnswersTree, IsContract, IsRefusal, IfSyntax, StopsAt};

use crate::contract::Contract;
use crate::methods::contract;
use crate::tree::ContractTree;
use cs_lang_token::{Cursor, LexError, MOST_TEXT, Stop, Token, tokens_of};
use std::alloc::Global;

/// Why a text is no contract.
#[derive(Clone, Copy, Debug, PartialEq, Eq)]
pub enum LangError {
    /// Memory ran out.
    Memory,
    /// It has more bytes than a text may have.
    TooLong,
    /// No token begins at this offset.
    Lex(usize),
    /// No contract text goes on with the token at this offset; or the text stops here too early.
    Syntax(usize),
}

/// The contract that the tokens of a text of this length spell.
fn read(alloc: Global, tokens: &[Token], end: usize) -> Result<ContractTree, LangError>
    ensures found { IfOk result (λ c. IsText Spelled c tokens.now) }
    ensures only { (c : ContractTree) → IsText Spelled c tokens.now → AnswersTree result c }
    ensures refused { IfErr result (λ e. IfSyntax e (λ place. StopsAt tokens.now end place)) }
{
    let mut cursor = Cursor::new(tokens);
    match contract(alloc, &mut cursor) {
        Ok(read) => {
            if cursor.len() > 0 {
                return Err(LangError::Syntax(cursor.place(end)));
            }
            Ok(read)
        }
        Err(Stop::Memory) => Err(LangError::Memory),
        Err(Stop::Syntax) => Err(LangError::Syntax(cursor.place(end))),
    }
}

/// The contract that a text is. It takes memory for the tokens and for the tree.
#[tactic(auto, using(crate::proofs::Fitting::has_text, crate::proofs::Fitting::text_fits))]
pub fn parse(alloc: Global, text: &[u8]) -> Result<Contract, LangError>
    // What is read is spelled by the text, within the limits.
    ensures found { IfOk result (λ c. IsContract text.now c) }
    // Its operators are of the rank of their chain, its literals within their limits.
    ensures fits { IfOk result (λ c. contract_fits c ≡ true) }
    // What the text spells is read, unless memory runs out.
    ensures only { (c : ContractTree) → IsContract text.now c → AnswersTree result c }
    // A refusal has its cause, and the place that goes with it.
    ensures refused { IfErr result (IsRefusal text.now) }
{
    if text.len() > MOST_TEXT {
        return Err(LangError::TooLong);
    }
    match tokens_of(alloc, text) {
        Ok(tokens) => {
            let tree = read(alloc, tokens.as_slice(), text.len())?;
            Ok(Contract::new(tree))
        }
        Err(LexError::Memory) => Err(LangError::Memory),
        Err(LexError::Bad(place)) => Err(LangError::Lex(place)),
    }
}
