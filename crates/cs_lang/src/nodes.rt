//! Nodes of trees.
ghost use Rattle.std.specs.Prelude.{◌≡◌, IfOk, Some};
ghost use Rattle.cs_lang.specs.Trees.{compared_expr, same_rank, is_chain, is_path, chain_begun, path_begun, with_link, with_step, grouped};

use crate::tree::{Access, Comparison, Expr, Link, Operator, Rank, Shape, Step};
use cs_base::Sequence;
use cs_lang_token::Boxed;
use std::alloc::{AllocError, Global};

impl Rank {
    /// Whether they are one.
    pub fn same(self, other: Rank) -> bool
        ensures { result ≡ same_rank self other }
    {
        match (self, other) {
            (Rank::Or, Rank::Or) => true,
            (Rank::And, Rank::And) => true,
            (Rank::Sum, Rank::Sum) => true,
            (Rank::Product, Rank::Product) => true,
            _ => false,
        }
    }
}

impl Expr {
    /// Whether it is a chain of the rank.
    pub fn is_chain(&self, rank: Rank) -> bool
        ensures { result ≡ is_chain rank self.now }
    {
        match &self.shape {
            Shape::Chain(old, _, _) => old.same(rank),
            _ => false,
        }
    }

    /// Whether it leads into a value.
    pub fn is_path(&self) -> bool
        ensures { result ≡ is_path self.now }
    {
        match &self.shape {
            Shape::Path(_, _) => true,
            _ => false,
        }
    }
}

/// The expression with an operator and its right operand behind it.
pub fn with_link(
    alloc: Global,
    left: Expr,
    rank: Rank,
    operator: Operator,
    place: usize,
    right: Expr,
) -> Result<Expr, AllocError>
    ensures { IfOk result (λ e. e ≡ with_link rank left ((operator, place), right)) }
{
    let first = left.first;
    let link = Link {
        operator,
        first,
        place,
        right,
    };
    if !left.is_chain(rank) {
        return begun_chain(alloc, left, rank, place, link);
    }
    let Expr {
        first: _,
        place: old,
        shape,
    } = left;
    match shape {
        Shape::Chain(_rank, start, links) => {
            let mut links = links;
            links.push(link)?;
            Ok(Expr {
                first,
                place,
                shape: Shape::Chain(rank, start, links),
            })
        }
        other => {
            let left = Expr {
                first,
                place: old,
                shape: other,
            };
            begun_chain(alloc, left, rank, place, link)
        }
    }
}

/// A new chain.
fn begun_chain(
    alloc: Global,
    left: Expr,
    rank: Rank,
    place: usize,
    link: Link,
) -> Result<Expr, AllocError>
    ensures { IfOk result (λ e. e ≡ chain_begun rank left place link) }
{
    let mut links = Sequence::new(alloc);
    links.push(link)?;
    Ok(Expr {
        first: left.first,
        place,
        shape: Shape::Chain(rank, Boxed::new(alloc, left)?, links),
    })
}

/// The expression with a step behind it.
pub fn with_step(
    alloc: Global,
    left: Expr,
    place: usize,
    access: Access,
) -> Result<Expr, AllocError>
    ensures { IfOk result (λ e. e ≡ with_step left (place, access)) }
{
    let first = left.first;
    let step = Step {
        first,
        place,
        access,
    };
    if !left.is_path() {
        return begun_path(alloc, left, place, step);
    }
    let Expr {
        first: _,
        place: old,
        shape,
    } = left;
    match shape {
        Shape::Path(start, steps) => {
            let mut steps = steps;
            steps.push(step)?;
            Ok(Expr {
                first,
                place,
                shape: Shape::Path(start, steps),
            })
        }
        other => {
            let left = Expr {
                first,
                place: old,
                shape: other,
            };
            begun_path(alloc, left, place, step)
        }
    }
}

/// A new path.
fn begun_path(alloc: Global, left: Expr, place: usize, step: Step) -> Result<Expr, AllocError>
    ensures { IfOk result (λ e. e ≡ path_begun left place step) }
{
    let mut steps = Sequence::new(alloc);
    steps.push(step)?;
    Ok(Expr {
        first: left.first,
        place,
        shape: Shape::Path(Boxed::new(alloc, left)?, steps),
    })
}

/// Two expressions on the heap.
pub fn boxed(
    alloc: Global,
    left: Expr,
    right: Expr,
) -> Result<(Boxed<Expr>, Boxed<Expr>), AllocError>
    ensures { IfOk result (λ both. both ≡ (left, right)) }
{
    let left = Boxed::new(alloc, left)?;
    let right = Boxed::new(alloc, right)?;
    Ok((left, right))
}

/// Two expressions that are compared.
pub fn with_comparison(
    alloc: Global,
    left: Expr,
    comparison: (Comparison, usize),
    right: Expr,
) -> Result<Expr, AllocError>
    ensures { IfOk result (λ e. e ≡ compared_expr (left, Some (comparison, right))) }
{
    let first = left.first;
    let (comparison, place) = comparison;
    let (left, right) = boxed(alloc, left, right)?;
    Ok(Expr {
        first,
        place,
        shape: Shape::Compared(comparison, left, right),
    })
}

/// The expression between parentheses, of which the first stands there.
pub fn grouped(opening: usize, inner: Expr, closing: usize) -> Expr
    ensures { result ≡ grouped (opening, (inner, closing)) }
{
    let _closing = closing;
    let Expr {
        first: _,
        place,
        shape,
    } = inner;
    Expr {
        first: opening,
        place,
        shape,
    }
}
