//! Whether a text is a contract that is accepted.
ghost use Rattle.std.specs.Prelude.{◌≡◌, ◌↔◌, ℕ, List, Ok, Some, IfOk, IfErr};
ghost use Rattle.cs_lang.specs.declared.tree.ContractTree.{ContractTree};
ghost use Rattle.cs_lang.specs.Texts.{IsContract};
ghost use Rattle.cs_types_kinds.specs.declared.scope.Costs.{Costs};
ghost use Rattle.cs_types.specs.Accepted.{accepted_costs};
ghost use Rattle.cs_types.specs.Accepting.{contract_of, accepted_of, Judges};
ghost use Rattle.cs_types.specs.Judging.{unread, unaccepted, HasFault, AnswersJudged};

use crate::fault::Fault;
use crate::{Checked, TypeError, accept};
use cs_lang::{LangError, parse};
use std::alloc::Global;

/// Why a text isn't accepted.
#[derive(Clone, Copy, Debug, PartialEq, Eq)]
pub enum Unjudged {
    /// It has a fault.
    Faulty(Fault),
    /// There was not enough memory.
    Memory,
}

// Why a text that is no contract isn't accepted.
fn unread(error: LangError) -> Unjudged
    ensures { result ≡ unread error }
{
    match error {
        LangError::Memory => Unjudged::Memory,
        LangError::TooLong => Unjudged::Faulty(Fault::TooLong),
        LangError::Lex(place) => Unjudged::Faulty(Fault::Lex(place)),
        LangError::Syntax(place) => Unjudged::Faulty(Fault::Syntax(place)),
    }
}

// Why a contract isn't accepted.
fn unaccepted(error: TypeError) -> Unjudged
    ensures { result ≡ unaccepted error }
{
    match error {
        TypeError::Memory => Unjudged::Memory,
        TypeError::Mistyped(place) => Unjudged::Faulty(Fault::Mistyped(place)),
        TypeError::Unbound(place) => Unjudged::Faulty(Fault::Unbound(place)),
        TypeError::Cost(cost) => Unjudged::Faulty(Fault::Cost(cost)),
    }
}

/// A text is a contract exactly where reading it from the left gives one.
///
/// It does nothing: its contract is a theorem, which a caller has by calling it.
pub fn contracts_are_read()
    ensures { (text : List ℕ) (contract : ContractTree)
        → (contract_of text ≡ Some contract) ↔ IsContract text contract }
{}

/// The contract that a text is, with its costs, where it is accepted.
pub fn judged(alloc: Global, text: &[u8]) -> Result<Checked, Unjudged>
    ensures accepted { IfOk result (λ a.
        IsContract text.now a.contract × (accepted_costs a.contract ≡ Ok a.costs)) }
    ensures refused { IfErr result (HasFault text.now) }
    ensures only { (contract : ContractTree) (costs : List Costs) → IsContract text.now contract
        → accepted_costs contract ≡ Ok costs → AnswersJudged result contract costs }
    ensures exact { Judges result (accepted_of text.now) }
{
    let contract = match parse(alloc, text) {
        Ok(contract) => contract,
        Err(error) => return Err(unread(error)),
    };
    match accept(alloc, contract) {
        Ok(checked) => Ok(checked),
        Err(error) => Err(unaccepted(error)),
    }
}
