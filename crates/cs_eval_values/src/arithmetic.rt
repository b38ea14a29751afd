//! Arithmetic of ints of 64 bits, which stops where one leaves its range.
ghost use Rattle.std.specs.Prelude.{◌≡◌, ◌+ℤ◌, ◌-ℤ◌, ◌*ℤ◌, neg_ℤ, int_div};
ghost use Rattle.cs_eval_values.specs.Ints.{in_range, compared_ints, divided, remainder, computed, negated};
ghost use Rattle.cs_eval_values.specs.Answers.{RunEnds};
ghost use Rattle.cs_eval_values.specs.Runs.{or_trap};
ghost use Rattle.cs_eval_values.specs.declared.stop.Cause.TheVariants as cause;

use crate::stop::{Cause, Stop};
use cs_lang::{Comparison, Operator};

#[tactic(auto, using(crate::proofs::Ranges::ranges))]
fn sum(x: i64, y: i64) -> Option<i64>
    ensures { result ≡ in_range (x +ℤ y) }
{
    x.checked_add(y)
}

#[tactic(auto, using(crate::proofs::Ranges::ranges))]
fn difference(x: i64, y: i64) -> Option<i64>
    ensures { result ≡ in_range (x -ℤ y) }
{
    x.checked_sub(y)
}

#[tactic(auto, using(crate::proofs::Ranges::ranges))]
fn product(x: i64, y: i64) -> Option<i64>
    ensures { result ≡ in_range (x *ℤ y) }
{
    x.checked_mul(y)
}

/// The quotient toward zero.
fn quotient(x: i64, y: i64, place: usize) -> Result<i64, Stop>
    ensures { RunEnds result (divided x y place) }
{
    if y == 0 {
        return Err(Stop::Trap(Cause::Divisor, place));
    }
    match x.checked_div(y) {
        Some(quotient) => Ok(quotient),
        None => Err(Stop::Trap(Cause::Range, place)),
    }
}

/// The remainder, with the sign of the left side.
fn rest(x: i64, y: i64, place: usize) -> Result<i64, Stop>
    ensures { RunEnds result (remainder x y place) }
{
    if y == 0 {
        return Err(Stop::Trap(Cause::Divisor, place));
    }
    match x.checked_rem(y) {
        Some(rest) => Ok(rest),
        None => Err(Stop::Trap(Cause::Range, place)),
    }
}

/// The number, or the trap of one out of range.
fn or_range(number: Option<i64>, place: usize) -> Result<i64, Stop>
    ensures { RunEnds result (or_trap cause.Range place number) }
{
    match number {
        Some(number) => Ok(number),
        None => Err(Stop::Trap(Cause::Range, place)),
    }
}

/// What an operator makes of two ints.
pub fn compute(operator: Operator, x: i64, y: i64, place: usize) -> Result<i64, Stop>
    ensures { RunEnds result (computed operator x y place) }
{
    match operator {
        Operator::Plus => or_range(sum(x, y), place),
        Operator::Minus => or_range(difference(x, y), place),
        Operator::Times => or_range(product(x, y), place),
        Operator::Divide => quotient(x, y, place),
        Operator::Remainder => rest(x, y, place),
        _ => Err(Stop::Trap(Cause::Misfit, place)),
    }
}

/// The int with the other sign.
pub fn negate(x: i64, place: usize) -> Result<i64, Stop>
    ensures { RunEnds result (negated x place) }
{
    match x.checked_neg() {
        Some(number) => Ok(number),
        None => Err(Stop::Trap(Cause::Range, place)),
    }
}

/// Whether the comparison holds of two ints.
pub fn compare(comparison: Comparison, x: i64, y: i64) -> bool
    ensures { result ≡ compared_ints comparison x y }
{
    match comparison {
        Comparison::Equal => x == y,
        Comparison::NotEqual => x != y,
        Comparison::Less => x < y,
        Comparison::LessOrEqual => x <= y,
        Comparison::Greater => y < x,
        Comparison::GreaterOrEqual => y <= x,
    }
}
