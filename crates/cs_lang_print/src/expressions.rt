//! Printing expressions.
ghost use Rattle.std.specs.Prelude.{◌≡◌, ◌++◌, false, codes, OnErr};
ghost use Rattle.cs_lang_print.specs.Words.{word, operator_text, with_commas, Appends, GoesOnBehind};
ghost use Rattle.cs_lang_print.specs.Spelling.{tightness_of, operand_tightness, held_together, parenthesized, in_brackets};
ghost use Rattle.cs_lang_print.specs.Expressions.{spelled, spelled_link, step_text, expr_text, truth_text, kind_text, applied, called_text, depint_text};
ghost use Rattle.cs_lang_print.specs.Runs.{times, openings, closing, parts_text, comma_text, items_text};

use crate::kinds::put_kind;
use crate::words::{put_comparison, put_number, put_operator, put_quoted, put_word};
use cs_lang::{Access, Expr, Link, Operator, Rank, Shape, Step, Text, ValueKind};
use cs_lang_token::MOST_OPERATORS;
use std::alloc::{AllocError, Global};

/// How tightly primary expressions hold together.
const PRIMARY: u8 = 8;

/// How tightly a chain holds together.
fn tightness_of(rank: Rank) -> u8
    ensures { result ≡ tightness_of rank }
{
    match rank {
        Rank::Or => 0,
        Rank::And => 1,
        Rank::Sum => 4,
        Rank::Product => 5,
    }
}

/// How tightly the operands of a chain hold together.
fn operand_tightness(rank: Rank) -> u8
    ensures { result ≡ operand_tightness rank }
{
    match rank {
        Rank::Or => 1,
        Rank::And => 2,
        Rank::Sum => 5,
        Rank::Product => 6,
    }
}

/// How tightly an expression holds together.
#[tactic(auto, using(crate::proofs::Layers::tightnesses))]
fn tightness(expr: &Expr) -> u8
    ensures { result ≡ (spelled expr.now).tightness }
{
    match &expr.shape {
        Shape::Number(_) => PRIMARY,
        Shape::Bytes(_) => PRIMARY,
        Shape::Truth(_) => PRIMARY,
        Shape::Name(_) => PRIMARY,
        Shape::List(_) => PRIMARY,
        Shape::Empty(_) => PRIMARY,
        Shape::Len(_) => PRIMARY,
        Shape::Sha256(_) => PRIMARY,
        Shape::Concat(_, _) => PRIMARY,
        Shape::Called(_, _) => PRIMARY,
        Shape::DepInt(_, _) => PRIMARY,
        Shape::Path(_, _) => 7,
        Shape::Not(_) => 2,
        Shape::Negative(_) => 6,
        Shape::Compared(_, _, _) => 3,
        Shape::Chain(rank, _, _) => tightness_of(*rank),
    }
}

/// An expression where it has to hold together so tightly.
#[cycle(spelling)]
fn put_within(alloc: Global, tight: u8, expr: &Expr, out: &mut Vec<u8>) -> Result<(), AllocError>
    ensures text { Appends result out.old out.new (held_together tight (spelled expr.now)) }
    ensures front { OnErr result (GoesOnBehind out.new.items out.old.items) }
{
    if tightness(expr) < tight {
        return put_grouped(alloc, expr, out);
    }
    put_expr(alloc, expr, out)
}

/// An expression in parentheses.
#[cycle(spelling)]
fn put_grouped(alloc: Global, expr: &Expr, out: &mut Vec<u8>) -> Result<(), AllocError>
    ensures text { Appends result out.old out.new (parenthesized (expr_text expr.now)) }
    ensures front { OnErr result (GoesOnBehind out.new.items out.old.items) }
{
    put_word(b"(", out)?;
    put_expr(alloc, expr, out)?;
    put_word(b")", out)
}

/// An item, behind a comma where it isn't the first.
#[cycle(spelling)]
fn put_item(alloc: Global, behind: bool, item: &Expr, out: &mut Vec<u8>) -> Result<(), AllocError>
    ensures text { Appends result out.old out.new (comma_text behind ++ expr_text item.now) }
    ensures front { OnErr result (GoesOnBehind out.new.items out.old.items) }
{
    put_comma(behind, out)?;
    put_expr(alloc, item, out)
}

/// Expressions, each behind a comma but the first.
#[cycle(spelling)]
fn put_row(alloc: Global, items: &[Expr], out: &mut Vec<u8>) -> Result<(), AllocError>
    ensures text { Appends result out.old out.new (items_text expr_text false items.now) }
    ensures front { OnErr result (GoesOnBehind out.new.items out.old.items) }
{
    let mut behind = false;
    for item in items {
        put_item(alloc, behind, item, out)?;
        behind = true;
    }
    Ok(())
}

/// Expressions with commas between them.
#[cycle(spelling)]
#[tactic(auto, using(crate::proofs::RunTexts::items))]
pub fn put_list(alloc: Global, items: &[Expr], out: &mut Vec<u8>) -> Result<(), AllocError>
    ensures text { Appends result out.old out.new (with_commas expr_text items.now) }
    ensures front { OnErr result (GoesOnBehind out.new.items out.old.items) }
{
    put_row(alloc, items, out)
}

/// A comma, behind an item.
fn put_comma(behind: bool, out: &mut Vec<u8>) -> Result<(), AllocError>
    ensures text { Appends result out.old out.new (comma_text behind) }
    ensures front { OnErr result (GoesOnBehind out.new.items out.old.items) }
{
    if behind {
        return put_word(b",", out);
    }
    Ok(())
}

/// So many opening parentheses.
fn put_opened(count: usize, out: &mut Vec<u8>) -> Result<(), AllocError>
    ensures text { Appends result out.old out.new (times count (word (codes "("))) }
    ensures front { OnErr result (GoesOnBehind out.new.items out.old.items) }
{
    for _ in 0..count {
        put_word(b"(", out)?;
    }
    Ok(())
}

/// The parentheses that open before so many operators or steps.
#[tactic(auto, unfolding(crate::specs::Runs::openings))]
fn put_openings(count: usize, out: &mut Vec<u8>) -> Result<(), AllocError>
    ensures text { Appends result out.old out.new (openings count) }
    ensures front { OnErr result (GoesOnBehind out.new.items out.old.items) }
{
    put_opened(count.saturating_sub(1) / MOST_OPERATORS, out)
}

/// The parenthesis that closes before an operator or a step with so many behind it, with itself,
/// where that one stands behind another.
fn put_closing(behind: bool, left: usize, out: &mut Vec<u8>) -> Result<(), AllocError>
    ensures text { Appends result out.old out.new (closing behind left) }
    ensures front { OnErr result (GoesOnBehind out.new.items out.old.items) }
{
    if behind && left % MOST_OPERATORS == 0 {
        return put_word(b")", out);
    }
    Ok(())
}

/// An operator and its right operand, which has to hold together so tightly.
#[cycle(spelling)]
fn put_right(
    alloc: Global,
    tight: u8,
    operator: Operator,
    right: &Expr,
    out: &mut Vec<u8>,
) -> Result<(), AllocError>
    ensures text { Appends result out.old out.new (word (operator_text operator)
        ++ held_together tight (spelled right.now)) }
    ensures front { OnErr result (GoesOnBehind out.new.items out.old.items) }
{
    put_operator(operator, out)?;
    put_within(alloc, tight, right, out)
}

/// An operator and its right operand, as one value.
#[cycle(spelling)]
#[tactic(auto, using(crate::proofs::Layers::links))]
fn put_link(alloc: Global, tight: u8, link: &Link, out: &mut Vec<u8>) -> Result<(), AllocError>
    ensures text { Appends result out.old out.new (spelled_link link.now tight) }
    ensures front { OnErr result (GoesOnBehind out.new.items out.old.items) }
{
    put_right(alloc, tight, link.operator, &link.right, out)
}

/// An operator that has so many behind it, with itself; behind another one a parenthesis may close.
#[cycle(spelling)]
fn put_next_link(
    alloc: Global,
    tight: u8,
    behind: bool,
    left: usize,
    link: &Link,
    out: &mut Vec<u8>,
) -> Result<(), AllocError>
    ensures text { Appends result out.old out.new (closing behind left
        ++ spelled_link link.now tight) }
    ensures front { OnErr result (GoesOnBehind out.new.items out.old.items) }
{
    put_closing(behind, left, out)?;
    put_link(alloc, tight, link, out)
}

/// Operators and their right operands.
#[cycle(spelling)]
fn put_links(alloc: Global, tight: u8, links: &[Link], out: &mut Vec<u8>) -> Result<(), AllocError>
    ensures text { Appends result out.old out.new
        (parts_text (λ link. spelled_link link tight) false links.now) }
    ensures front { OnErr result (GoesOnBehind out.new.items out.old.items) }
{
    let mut behind = false;
    let mut left = links.len();
    for link in links {
        put_next_link(alloc, tight, behind, left, link, out)?;
        behind = true;
        left -= 1;
    }
    Ok(())
}

/// An expression in brackets.
#[cycle(spelling)]
fn put_index(alloc: Global, index: &Expr, out: &mut Vec<u8>) -> Result<(), AllocError>
    ensures text { Appends result out.old out.new (in_brackets (expr_text index.now)) }
    ensures front { OnErr result (GoesOnBehind out.new.items out.old.items) }
{
    put_word(b"[", out)?;
    put_expr(alloc, index, out)?;
    put_word(b"]", out)
}

/// A name behind a dot.
fn put_field(name: &Text, out: &mut Vec<u8>) -> Result<(), AllocError>
    ensures text { Appends result out.old out.new (word (codes ".") ++ word name.now.bytes) }
    ensures front { OnErr result (GoesOnBehind out.new.items out.old.items) }
{
    put_word(b".", out)?;
    put_word(name.bytes.as_slice(), out)
}

/// A step into a value.
#[cycle(spelling)]
#[tactic(auto, using(crate::proofs::Layers::steps))]
fn put_step(alloc: Global, step: &Step, out: &mut Vec<u8>) -> Result<(), AllocError>
    ensures text { Appends result out.old out.new (step_text step.now) }
    ensures front { OnErr result (GoesOnBehind out.new.items out.old.items) }
{
    match &step.access {
        Access::Field(name) => put_field(name, out),
        Access::Index(index) => put_index(alloc, index, out),
    }
}

/// A step that has so many behind it, with itself; behind another one a parenthesis may close.
#[cycle(spelling)]
fn put_next_step(
    alloc: Global,
    behind: bool,
    left: usize,
    step: &Step,
    out: &mut Vec<u8>,
) -> Result<(), AllocError>
    ensures text { Appends result out.old out.new (closing behind left ++ step_text step.now) }
    ensures front { OnErr result (GoesOnBehind out.new.items out.old.items) }
{
    put_closing(behind, left, out)?;
    put_step(alloc, step, out)
}

/// Steps into a value.
#[cycle(spelling)]
fn put_steps(alloc: Global, steps: &[Step], out: &mut Vec<u8>) -> Result<(), AllocError>
    ensures text { Appends result out.old out.new (parts_text step_text false steps.now) }
    ensures front { OnErr result (GoesOnBehind out.new.items out.old.items) }
{
    let mut behind = false;
    let mut left = steps.len();
    for step in steps {
        put_next_step(alloc, behind, left, step, out)?;
        behind = true;
        left -= 1;
    }
    Ok(())
}

/// A truth.
fn put_truth(truth: bool, out: &mut Vec<u8>) -> Result<(), AllocError>
    ensures text { Appends result out.old out.new (word (truth_text truth)) }
    ensures front { OnErr result (GoesOnBehind out.new.items out.old.items) }
{
    if truth {
        put_word(b"true", out)
    } else {
        put_word(b"false", out)
    }
}

/// The number of a dep and the name of a method.
fn put_called(alloc: Global, dep: u64, method: &Text, out: &mut Vec<u8>) -> Result<(), AllocError>
    ensures text { Appends result out.old out.new (called_text dep method.now) }
    ensures front { OnErr result (GoesOnBehind out.new.items out.old.items) }
{
    put_word(b"called", out)?;
    put_word(b"(", out)?;
    put_number(alloc, dep, out)?;
    put_word(b",", out)?;
    put_word(method.bytes.as_slice(), out)?;
    put_word(b")", out)
}

/// The number of a dep and the place of a returned value.
fn put_depint(alloc: Global, dep: u64, value: u64, out: &mut Vec<u8>) -> Result<(), AllocError>
    ensures text { Appends result out.old out.new (depint_text dep value) }
    ensures front { OnErr result (GoesOnBehind out.new.items out.old.items) }
{
    put_word(b"depint", out)?;
    put_word(b"(", out)?;
    put_number(alloc, dep, out)?;
    put_word(b",", out)?;
    put_number(alloc, value, out)?;
    put_word(b")", out)
}

/// The kind of an empty list.
fn put_empty(kind: &ValueKind, out: &mut Vec<u8>) -> Result<(), AllocError>
    ensures text { Appends result out.old out.new (word (codes "empty") ++ kind_text kind.now) }
    ensures front { OnErr result (GoesOnBehind out.new.items out.old.items) }
{
    put_word(b"empty", out)?;
    put_kind(kind, out)
}

/// An expression behind a word, in parentheses.
#[cycle(spelling)]
fn put_applied(
    alloc: Global,
    name: &[u8],
    inner: &Expr,
    out: &mut Vec<u8>,
) -> Result<(), AllocError>
    ensures text { Appends result out.old out.new (applied name.now (expr_text inner.now)) }
    ensures front { OnErr result (GoesOnBehind out.new.items out.old.items) }
{
    put_word(name, out)?;
    put_grouped(alloc, inner, out)
}

/// The first of two that are put together.
#[cycle(spelling)]
fn put_front(alloc: Global, front: &Expr, out: &mut Vec<u8>) -> Result<(), AllocError>
    ensures text { Appends result out.old out.new (word (codes "concat")
        ++ (word (codes "(") ++ expr_text front.now)) }
    ensures front { OnErr result (GoesOnBehind out.new.items out.old.items) }
{
    put_word(b"concat", out)?;
    put_word(b"(", out)?;
    put_expr(alloc, front, out)
}

/// The second of two that are put together.
#[cycle(spelling)]
fn put_back(alloc: Global, back: &Expr, out: &mut Vec<u8>) -> Result<(), AllocError>
    ensures text { Appends result out.old out.new (word (codes ",")
        ++ (expr_text back.now ++ word (codes ")"))) }
    ensures front { OnErr result (GoesOnBehind out.new.items out.old.items) }
{
    put_word(b",", out)?;
    put_expr(alloc, back, out)?;
    put_word(b")", out)
}

/// Items in brackets.
#[cycle(spelling)]
fn put_items(alloc: Global, items: &[Expr], out: &mut Vec<u8>) -> Result<(), AllocError>
    ensures text { Appends result out.old out.new (in_brackets (with_commas expr_text items.now)) }
    ensures front { OnErr result (GoesOnBehind out.new.items out.old.items) }
{
    put_word(b"[", out)?;
    put_list(alloc, items, out)?;
    put_word(b"]", out)
}

/// What turns an expression, and that one, which has to hold together so tightly.
#[cycle(spelling)]
fn put_turned(
    alloc: Global,
    name: &[u8],
    tight: u8,
    inner: &Expr,
    out: &mut Vec<u8>,
) -> Result<(), AllocError>
    ensures text { Appends result out.old out.new (word name.now
        ++ held_together tight (spelled inner.now)) }
    ensures front { OnErr result (GoesOnBehind out.new.items out.old.items) }
{
    put_word(name, out)?;
    put_within(alloc, tight, inner, out)
}

/// An expression.
#[cycle(spelling)]
#[tactic(auto, using(crate::proofs::Layers::texts))]
pub fn put_expr(alloc: Global, expr: &Expr, out: &mut Vec<u8>) -> Result<(), AllocError>
    ensures text { Appends result out.old out.new (expr_text expr.now) }
    ensures front { OnErr result (GoesOnBehind out.new.items out.old.items) }
{
    match &expr.shape {
        Shape::Number(number) => put_number(alloc, *number, out),
        Shape::Bytes(bytes) => put_quoted(bytes.as_slice(), out),
        Shape::Truth(truth) => put_truth(*truth, out),
        Shape::Name(name) => put_word(name.as_slice(), out),
        Shape::List(items) => put_items(alloc, items.as_slice(), out),
        Shape::Empty(kind) => put_empty(kind, out),
        Shape::Len(inner) => put_applied(alloc, b"len", inner.get(), out),
        Shape::Sha256(inner) => put_applied(alloc, b"sha256", inner.get(), out),
        Shape::Concat(front, back) => {
            put_front(alloc, front.get(), out)?;
            put_back(alloc, back.get(), out)
        }
        Shape::Called(dep, method) => put_called(alloc, *dep, method, out),
        Shape::DepInt(dep, value) => put_depint(alloc, *dep, *value, out),
        Shape::Path(start, steps) => {
            put_openings(steps.len(), out)?;
            put_within(alloc, PRIMARY, start.get(), out)?;
            put_steps(alloc, steps.as_slice(), out)
        }
        Shape::Not(inner) => put_turned(alloc, b"not", 2, inner.get(), out),
        Shape::Negative(inner) => put_turned(alloc, b"-", 6, inner.get(), out),
        Shape::Compared(comparison, left, right) => {
            put_within(alloc, 4, left.get(), out)?;
            put_comparison(*comparison, out)?;
            put_within(alloc, 4, right.get(), out)
        }
        Shape::Chain(rank, start, links) => {
            let tight = operand_tightness(*rank);
            put_openings(links.len(), out)?;
            put_within(alloc, tight, start.get(), out)?;
            put_links(alloc, tight, links.as_slice(), out)
        }
    }
}
