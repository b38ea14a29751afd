//! Methods, and what their bodies cost.
ghost use Rattle.std.specs.Prelude.{OnOk};
ghost use Rattle.cs_types.specs.Answers.{AnswersTold};
ghost use Rattle.cs_types.specs.Steps.{SameAbove};
ghost use Rattle.cs_types.specs.Accepted.{body_told, method_costs, methods_told};

use crate::calls::takes_many;
use crate::declarations::add_names;
use crate::statements::block;
use cs_base::Sequence;
use cs_lang::{Block, ContractTree, Method};
use cs_lang_token::MOST_METHODS;
use cs_types_kinds::{Costs, Scope, TypeError, method_number};
use std::alloc::Global;

/// The cost of a procedure or a check.
fn body(
    alloc: Global,
    scope: &mut Scope<'_>,
    method: &Method,
    in_check: bool,
    body: &Block,
) -> Result<u64, TypeError>
    ensures told { AnswersTold result
        (body_told scope.old.contract scope.old.costs in_check method.now body.now) }
    ensures rest { OnOk result (SameAbove scope.old scope.new) }
{
    scope.enter(takes_many(method), in_check);
    add_names(alloc, scope, method, in_check)?;
    block(alloc, scope, body)
}

/// The costs of a method below others.
fn method(
    alloc: Global,
    scope: &mut Scope<'_>,
    above: &[Method],
    method: &Method,
) -> Result<Costs, TypeError>
    ensures told { AnswersTold result
        (method_costs scope.old.contract scope.old.costs above.now method.now) }
    ensures rest { OnOk result (SameAbove scope.old scope.new) }
{
    if above.len() >= MOST_METHODS || method_number(above, method.name.bytes.as_slice()).is_some() {
        return Err(TypeError::Mistyped(method.name.place));
    }
    let procedure = body(alloc, scope, method, false, &method.procedure)?;
    let check = body(alloc, scope, method, true, &method.check)?;
    Ok(Costs { procedure, check })
}

/// The costs of the methods of a contract.
pub fn methods(alloc: Global, contract: &ContractTree) -> Result<Sequence<Costs>, TypeError>
    ensures { AnswersTold result (methods_told contract.now) }
{
    let mut scope = Scope::new(alloc, contract);
    let methods = contract.methods.as_slice();
    for i in 0..methods.len() {
        let costs = method(alloc, &mut scope, methods.split_at(i).0, &methods[i])?;
        scope.close(costs)?;
    }
    Ok(scope.into_costs())
}
