//! Accepted contracts.
ghost use Rattle.std.specs.Prelude.{◌≡◌};
ghost use Rattle.cs_types.specs.Answers.{AnswersTold};
ghost use Rattle.cs_types.specs.Accepted.{judged_costs, first_dear, IsAccepted, Accepts};

use crate::declarations::check_types;
use crate::methods::methods;
use cs_base::Sequence;
use cs_lang::{Contract, ContractTree};
use cs_lang_names::Numbers;
use cs_lang_token::MOST_COST;
use cs_types_kinds::{Costs, TypeError};
use std::alloc::Global;
use std::marker::Model;

/// A contract that is well typed and whose bodies cost little enough, with the costs of its
/// methods.
#[derive(Drop)]
pub struct Checked {
    contract: Contract,
    costs: Sequence<Costs>,
    numbers: Numbers,
}

impl Model for Checked {
    ghost use Rattle.std.specs.Coded.{codes};
    ghost use Rattle.cs_lang.specs.contracts.tree.ValueKind as kinds;
    ghost use Rattle.cs_lang.specs.contracts.tree.Expr as exprs;
    ghost use Rattle.cs_lang.specs.contracts.tree.Block as blocks;
    ghost use Rattle.cs_types.specs.Accepted.{Accepted, IsAccepted};

    ghost Value = { Accepted };

    ghost coded = { Prim.hlevel (codes, kinds.the_row.coded, exprs.the_row.coded, blocks.the_row.coded) };

    ghost view = { λ s. record { contract = s.contract; costs = s.costs } };

    ghost invariant = { λ s. IsAccepted (record { contract = s.contract; costs = s.costs }) };
}

impl Checked {
    /// The contract.
    pub fn contract(&self) -> &Contract
        ensures value { result.now ≡ self.now.contract }
        ensures accepted { IsAccepted self.now }
    {
        &self.contract
    }

    /// The numbers of its names, which say nothing of it: they spare searching.
    pub fn numbers(&self) -> &Numbers {
        &self.numbers
    }

    /// The costs of its methods, in their order.
    pub fn costs(&self) -> &[Costs]
        ensures value { result.now ≡ self.now.costs }
        ensures accepted { IsAccepted self.now }
    {
        self.costs.as_slice()
    }
}

/// The first cost above the limit.
fn first_dear(costs: &[Costs]) -> Option<u64>
    ensures { result ≡ first_dear costs.now }
{
    for one in costs {
        if one.procedure > MOST_COST {
            return Some(one.procedure);
        }
        if one.check > MOST_COST {
            return Some(one.check);
        }
    }
    None
}

/// The costs of the methods of a contract that is well typed.
fn judged_costs(alloc: Global, contract: &ContractTree) -> Result<Sequence<Costs>, TypeError>
    ensures { AnswersTold result (judged_costs contract.now) }
{
    check_types(contract.types.as_slice())?;
    methods(alloc, contract)
}

/// Accepts a contract exactly where it is well typed and no procedure and no check costs more than
/// the limit. The first place at fault in the order of the text is told, and costs only where there
/// is none.
pub fn accept(alloc: Global, contract: Contract) -> Result<Checked, TypeError>
    ensures { Accepts contract result }
{
    let costs = judged_costs(alloc, contract.tree())?;
    if let Some(cost) = first_dear(costs.as_slice()) {
        return Err(TypeError::Cost(cost));
    }
    let Ok(numbers) = Numbers::of(alloc, contract.tree()) else {
        return Err(TypeError::Memory);
    };
    Ok(Checked {
        contract,
        costs,
        numbers,
    })
}
