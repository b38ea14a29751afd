//! What is left to do of an expression.
use cs_base::Sequence;
use cs_eval_shared::Shared;
use cs_eval_values::{Binary, Held, Unary};
use cs_lang::{Expr, Link, Step};

/// What is left to do with the value of a part of an expression.
#[derive(Drop)]
pub enum Frame<'a> {
    /// Something is made of it alone.
    Unary(Unary, usize),
    /// It is the left one of two, and this is the right one.
    First(Binary, &'a Expr, usize),
    /// It is the right one of two, and this is the left one.
    Second(Binary, Held<'a>, usize),
    /// It is what stands left of these operators.
    Chain(&'a [Link]),
    /// These steps lead into it.
    Path(&'a [Step]),
    /// It is an item of a list: the items behind it, and the values of those before it.
    Items(&'a [Expr], Sequence<Shared<'a>>, usize),
}

/// What is done next: an expression is evaluated, or its value is handed on.
#[derive(Drop)]
pub enum Next<'a> {
    Eval(&'a Expr),
    Give(Held<'a>),
}
