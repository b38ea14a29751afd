//! Places of expressions.
ghost use Rattle.std.specs.Prelude.{◌≡◌, ◌+◌, max, map, IfOk};
ghost use Rattle.cs_eval.specs.Places.{in_turn, in_front, places, places_of_link, places_of_step};

use crate::counts::one_more;
use cs_base::Memory;
use cs_lang::{Access, Expr, Link, Shape, Step};

/// How many places the evaluation of an expression takes at most.
#[cycle(expression)]
#[tactic(auto, using(crate::proofs::PlacesLayers::shapes))]
pub fn expr_places(expr: &Expr) -> Result<usize, Memory>
    ensures { IfOk result (λ n. n ≡ places expr.now) }
{
    match &expr.shape {
        Shape::Number(_) => Ok(0),
        Shape::Bytes(_) => Ok(0),
        Shape::Truth(_) => Ok(0),
        Shape::Name(_) => Ok(0),
        Shape::List(items) => items_places(items.as_slice()),
        Shape::Empty(_) => Ok(0),
        Shape::Len(part) => under_whole(part.get()),
        Shape::Sha256(part) => under_whole(part.get()),
        Shape::Concat(front, back) => {
            let front = expr_places(front.get())?;
            two_places(front, back.get())
        }
        Shape::Called(_, _) => Ok(0),
        Shape::DepInt(_, _) => Ok(0),
        Shape::Path(start, steps) => {
            let start = expr_places(start.get())?;
            path_places(start, steps.as_slice())
        }
        Shape::Not(part) => under_whole(part.get()),
        Shape::Negative(part) => under_whole(part.get()),
        Shape::Compared(_, left, right) => {
            let left = expr_places(left.get())?;
            two_places(left, right.get())
        }
        Shape::Chain(_, start, links) => {
            let start = expr_places(start.get())?;
            chain_places(start, links.as_slice())
        }
    }
}

/// Those of a part, with the place in which its whole waits.
#[cycle(expression)]
fn under_whole(part: &Expr) -> Result<usize, Memory>
    ensures { IfOk result (λ n. n ≡ places part.now + 1) }
{
    let part = expr_places(part)?;
    one_more(part)
}

/// Those of two parts, of which the left one takes so many, with the place in which their whole
/// waits.
#[cycle(expression)]
fn two_places(left: usize, right: &Expr) -> Result<usize, Memory>
    ensures { IfOk result (λ n. n ≡ max left (places right.now) + 1) }
{
    let right = expr_places(right)?;
    one_more(left.max(right))
}

/// The more of so many and those of a part, with the place in which its whole waits.
#[cycle(expression)]
fn with_part(most: usize, part: &Expr) -> Result<usize, Memory>
    ensures { IfOk result (λ n. n ≡ max most (places part.now + 1)) }
{
    Ok(most.max(under_whole(part)?))
}

/// Those of the items of a list.
#[cycle(expression)]
fn items_places(items: &[Expr]) -> Result<usize, Memory>
    ensures { IfOk result (λ n. n ≡ in_turn (map places items.now)) }
{
    let mut most = 0;
    for item in items {
        most = with_part(most, item)?;
    }
    Ok(most)
}

/// The more of so many and those of an operator's right side.
#[cycle(expression)]
#[tactic(auto, using(crate::proofs::PlacesLayers::link_is))]
fn with_link(most: usize, link: &Link) -> Result<usize, Memory>
    ensures { IfOk result (λ n. n ≡ max most (places_of_link link.now + 1)) }
{
    let right = under_whole(&link.right)?;
    Ok(most.max(one_more(right)?))
}

/// Those of operators behind a part that takes so many.
#[cycle(expression)]
#[tactic(auto, using(crate::proofs::PlacesLayers::chain_front))]
fn chain_places(start: usize, links: &[Link]) -> Result<usize, Memory>
    ensures { IfOk result (λ n. n ≡ in_front start (map places_of_link links.now)) }
{
    match links {
        [] => Ok(start),
        [_, ..] => links_places(one_more(start)?, links),
    }
}

/// The more of so many and those of operators.
#[cycle(expression)]
fn links_places(first: usize, links: &[Link]) -> Result<usize, Memory>
    ensures { IfOk result (λ n. n ≡ max first (in_turn (map places_of_link links.now))) }
{
    let mut most = first;
    for link in links {
        most = with_link(most, link)?;
    }
    Ok(most)
}

/// The more of so many and those of a step.
#[cycle(expression)]
#[tactic(auto, using(crate::proofs::PlacesLayers::steps))]
fn with_step(most: usize, step: &Step) -> Result<usize, Memory>
    ensures { IfOk result (λ n. n ≡ max most (places_of_step step.now + 1)) }
{
    match &step.access {
        Access::Field(_) => Ok(most.max(1)),
        Access::Index(index) => {
            let index = under_whole(index)?;
            Ok(most.max(one_more(index)?))
        }
    }
}

/// Those of steps into a part that takes so many.
#[cycle(expression)]
#[tactic(auto, using(crate::proofs::PlacesLayers::path_front))]
fn path_places(start: usize, steps: &[Step]) -> Result<usize, Memory>
    ensures { IfOk result (λ n. n ≡ in_front start (map places_of_step steps.now)) }
{
    match steps {
        [] => Ok(start),
        [_, ..] => steps_places(one_more(start)?, steps),
    }
}

/// The more of so many and those of steps.
#[cycle(expression)]
fn steps_places(first: usize, steps: &[Step]) -> Result<usize, Memory>
    ensures { IfOk result (λ n. n ≡ max first (in_turn (map places_of_step steps.now))) }
{
    let mut most = first;
    for step in steps {
        most = with_step(most, step)?;
    }
    Ok(most)
}
