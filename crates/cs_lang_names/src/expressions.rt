//! The names of expressions.
use crate::numbers::Numbers;
use cs_base::Memory;
use cs_lang::{Access, Expr, Link, Shape, Step};
use std::alloc::Global;

#[cycle(expression)]
fn each(alloc: Global, exprs: &[Expr], numbers: &mut Numbers) -> Result<(), Memory> {
    for expr in exprs {
        expression(alloc, expr, numbers)?;
    }
    Ok(())
}

#[cycle(expression)]
fn links(alloc: Global, links: &[Link], numbers: &mut Numbers) -> Result<(), Memory> {
    for link in links {
        expression(alloc, &link.right, numbers)?;
    }
    Ok(())
}

#[cycle(expression)]
fn steps(alloc: Global, steps: &[Step], numbers: &mut Numbers) -> Result<(), Memory> {
    for step in steps {
        if let Access::Index(index) = &step.access {
            expression(alloc, index, numbers)?;
        }
    }
    Ok(())
}

/// Keeps the names of an expression.
#[cycle(expression)]
pub fn expression(alloc: Global, expr: &Expr, numbers: &mut Numbers) -> Result<(), Memory> {
    match &expr.shape {
        Shape::Name(name) => numbers.keep(alloc, name.as_slice(), expr.place),
        Shape::List(items) => each(alloc, items.as_slice(), numbers),
        Shape::Len(part) => expression(alloc, part.get(), numbers),
        Shape::Sha256(part) => expression(alloc, part.get(), numbers),
        Shape::Not(part) => expression(alloc, part.get(), numbers),
        Shape::Negative(part) => expression(alloc, part.get(), numbers),
        Shape::Concat(front, back) => {
            expression(alloc, front.get(), numbers)?;
            expression(alloc, back.get(), numbers)
        }
        Shape::Compared(_, left, right) => {
            expression(alloc, left.get(), numbers)?;
            expression(alloc, right.get(), numbers)
        }
        Shape::Path(start, path) => {
            expression(alloc, start.get(), numbers)?;
            steps(alloc, path.as_slice(), numbers)
        }
        Shape::Chain(_, start, chain) => {
            expression(alloc, start.get(), numbers)?;
            links(alloc, chain.as_slice(), numbers)
        }
        _ => Ok(()),
    }
}
