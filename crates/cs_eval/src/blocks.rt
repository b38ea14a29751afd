//! Places of blocks.
ghost use Rattle.std.specs.Prelude.{◌≡◌, ◌+◌, max, map, IfOk};
ghost use Rattle.cs_eval.specs.Places.{places};
ghost use Rattle.cs_eval.specs.Blocks.{one_by_one, turns_places, places_of_action, places_of_statement, places_of_block};

use crate::counts::one_more;
use crate::places::expr_places;
use cs_base::Memory;
use cs_lang::{Action, Block, Expr, Statement};

/// The more of so many and those of a block.
#[cycle(block)]
fn with_block(most: usize, block: &Block) -> Result<usize, Memory>
    ensures { IfOk result (λ n. n ≡ max most (places_of_block block.now)) }
{
    Ok(most.max(block_places(block)?))
}

/// Those of a block with the place in which its loop waits.
#[cycle(block)]
fn each_places(each: &Block) -> Result<usize, Memory>
    ensures { IfOk result (λ n. n ≡ places_of_block each.now + 1) }
{
    let each = block_places(each)?;
    one_more(each)
}

/// Those of a loop over a list that takes so many.
#[cycle(block)]
fn list_places(list: usize, each: &Block) -> Result<usize, Memory>
    ensures { IfOk result (λ n. n ≡ max list (places_of_block each.now + 1)) }
{
    Ok(list.max(each_places(each)?))
}

/// Those of a loop of so many turns.
#[cycle(block)]
fn turns_places(count: u64, each: &Block) -> Result<usize, Memory>
    ensures { IfOk result (λ n. n ≡ turns_places count (places_of_block each.now)) }
{
    if count == 0 {
        return Ok(1);
    }
    each_places(each)
}

/// How many places a statement takes at most, by what it does.
#[cycle(block)]
#[tactic(auto, using(crate::proofs::Actions::actions))]
fn action_places(action: &Action) -> Result<usize, Memory>
    ensures { IfOk result (λ n. n ≡ places_of_action action.now) }
{
    match action {
        Action::Let(_, value) => expr_places(value),
        Action::Set(_, value) => expr_places(value),
        Action::If(condition, block) => with_block(expr_places(condition)?, block),
        Action::IfElse(condition, block, other) => {
            let first = with_block(expr_places(condition)?, block)?;
            with_block(first, other)
        }
        Action::ForIn(_, list, each) => list_places(expr_places(list)?, each),
        Action::ForTo(_, count, each) => turns_places(*count, each),
        Action::Make(_, _, _) => Ok(0),
        Action::Call(_, _, _) => Ok(0),
        Action::Answer(value) => expr_places(value),
    }
}

/// The more of so many and those of a statement, with the place in which those behind it wait.
#[cycle(block)]
#[tactic(auto, using(crate::proofs::Actions::statement_is))]
fn with_statement(most: usize, statement: &Statement) -> Result<usize, Memory>
    ensures { IfOk result (λ n. n ≡ max most (places_of_statement statement.now + 1)) }
{
    let places = action_places(&statement.action)?;
    Ok(most.max(one_more(places)?))
}

/// Those of statements.
#[cycle(block)]
#[tactic(auto, using(crate::proofs::Actions::one_at_least))]
fn statements_places(statements: &[Statement]) -> Result<usize, Memory>
    ensures { IfOk result (λ n. n ≡ one_by_one (map places_of_statement statements.now)) }
{
    let mut most = 1;
    for statement in statements {
        most = with_statement(most, statement)?;
    }
    Ok(most)
}

/// How many places a block takes at most.
#[cycle(block)]
#[tactic(auto, using(crate::proofs::Actions::block_is))]
pub fn block_places(block: &Block) -> Result<usize, Memory>
    ensures { IfOk result (λ n. n ≡ places_of_block block.now) }
{
    let statements = statements_places(block.statements.as_slice())?;
    one_more(statements)
}
