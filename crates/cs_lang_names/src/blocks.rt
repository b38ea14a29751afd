//! The names of statements.
use crate::expressions::expression;
use crate::numbers::Numbers;
use cs_base::Memory;
use cs_lang::{Action, Block, Expr, Text};
use std::alloc::Global;

/// Keeps a name.
pub fn text(alloc: Global, name: &Text, numbers: &mut Numbers) -> Result<(), Memory> {
    numbers.keep(alloc, name.bytes.as_slice(), name.place)
}

fn texts(alloc: Global, names: &[Text], numbers: &mut Numbers) -> Result<(), Memory> {
    for name in names {
        text(alloc, name, numbers)?;
    }
    Ok(())
}

fn expressions(alloc: Global, exprs: &[Expr], numbers: &mut Numbers) -> Result<(), Memory> {
    for expr in exprs {
        expression(alloc, expr, numbers)?;
    }
    Ok(())
}

fn named(alloc: Global, name: &Text, expr: &Expr, numbers: &mut Numbers) -> Result<(), Memory> {
    text(alloc, name, numbers)?;
    expression(alloc, expr, numbers)
}

#[cycle(block)]
fn action(alloc: Global, action: &Action, numbers: &mut Numbers) -> Result<(), Memory> {
    match action {
        Action::Let(name, value) => named(alloc, name, value, numbers),
        Action::Set(name, value) => named(alloc, name, value, numbers),
        Action::If(condition, one) => {
            expression(alloc, condition, numbers)?;
            block(alloc, one, numbers)
        }
        Action::IfElse(condition, one, other) => {
            expression(alloc, condition, numbers)?;
            block(alloc, one, numbers)?;
            block(alloc, other, numbers)
        }
        Action::ForIn(name, list, each) => {
            named(alloc, name, list, numbers)?;
            block(alloc, each, numbers)
        }
        Action::ForTo(name, _, each) => {
            text(alloc, name, numbers)?;
            block(alloc, each, numbers)
        }
        Action::Make(_, _, values) => expressions(alloc, values.as_slice(), numbers),
        Action::Call(bound, _, arguments) => {
            texts(alloc, bound.as_slice(), numbers)?;
            expressions(alloc, arguments.as_slice(), numbers)
        }
        Action::Answer(value) => expression(alloc, value, numbers),
    }
}

/// Keeps the names of a block.
#[cycle(block)]
pub fn block(alloc: Global, block: &Block, numbers: &mut Numbers) -> Result<(), Memory> {
    for statement in block.statements.as_slice() {
        action(alloc, &statement.action, numbers)?;
    }
    Ok(())
}
