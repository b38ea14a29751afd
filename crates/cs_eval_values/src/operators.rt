//! Operators on what is held.
ghost use Rattle.std.specs.Prelude.{◌≡◌, ◌++◌, OnOk};
ghost use Rattle.std.specs.Str.{bytes_eq};
ghost use Rattle.cs_tx_value.specs.declared.value.Value.{out-Value};
ghost use Rattle.cs_eval_values.specs.Datums.{bool_of, bytes_of_datum, int_of};
ghost use Rattle.cs_eval_values.specs.Runs.{traps};
ghost use Rattle.cs_eval_values.specs.Answers.{RunEnds};
ghost use Rattle.cs_base.specs.Options.{or_else};
ghost use Rattle.cs_eval_values.specs.Operators.{given_int, given_bool, given_value, list_of as list_run, with_item as item_run, int_number as number_run, unary, joined_bytes, joined_lists, joined_layers, joined, same_bool, equality, both, same_in, compared_in, compared, left_decides as decides_all, right_bool, arithmetic, linked, indexed, binary};

use crate::arithmetic::{compare, compute, negate};
use crate::held::Held;
use crate::limits::MOST_VALUE;
use crate::stop::{Cause, Stop};
use cs_base::{Memory, Sequence};
use cs_eval_shared::{Open, Shared};
use cs_lang::{Comparison, Operator};
use cs_lang_token::{MOST_BYTES, MOST_ITEMS};
use cs_tx_value::Value;
use sha2::{Digest, Sha256};
use std::alloc::Global;

/// What is made of one part.
#[derive(Clone, Copy)]
pub enum Unary {
    Len,
    Sha256,
    Not,
    Negative,
}

/// What is made of two parts.
#[derive(Clone, Copy)]
pub enum Binary {
    Concat,
    Compared(Comparison),
    Linked(Operator),
    Index,
}

fn given_int(held: &Held<'_>, place: usize) -> Result<i64, Stop>
    ensures { RunEnds result (given_int place held.now) }
{
    match held.as_int() {
        Some(number) => Ok(number),
        None => Err(Stop::Trap(Cause::Misfit, place)),
    }
}

fn given_bool(held: &Held<'_>, place: usize) -> Result<bool, Stop>
    ensures { RunEnds result (given_bool place held.now) }
{
    match held.as_bool() {
        Some(truth) => Ok(truth),
        None => Err(Stop::Trap(Cause::Misfit, place)),
    }
}

fn given_value<'a>(held: Held<'a>, place: usize) -> Result<Shared<'a>, Stop>
    ensures { RunEnds result (given_value place held.entry) }
{
    match held.into_shared() {
        Some(value) => Ok(value),
        None => Err(Stop::Trap(Cause::Misfit, place)),
    }
}

/// The list of the items, where its encoding isn't too long.
pub fn list_of<'a>(
    alloc: Global,
    items: Sequence<Shared<'a>>,
    place: usize,
) -> Result<Held<'a>, Stop>
    ensures { RunEnds result (list_run items.entry place) }
{
    match Shared::list(alloc, items, MOST_VALUE)? {
        Some(list) => Ok(Held::plain(list)),
        None => Err(Stop::Trap(Cause::Size, place)),
    }
}

/// Adds an item, which is shared.
pub fn with_item<'a>(
    items: Sequence<Shared<'a>>,
    item: Held<'a>,
    place: usize,
) -> Result<Sequence<Shared<'a>>, Stop>
    ensures { RunEnds result (item_run place items.entry item.entry) }
{
    let mut items = items;
    items.push(given_value(item, place)?)?;
    Ok(items)
}

/// Adds a value by itself.
pub fn with_value(
    alloc: Global,
    values: Sequence<Value>,
    item: Held<'_>,
    place: usize,
) -> Result<Sequence<Value>, Stop>
    ensures { RunEnds result (item_run place values item.entry) }
{
    let mut values = values;
    match item.value(alloc)? {
        Some(value) => values.push(value)?,
        None => return Err(Stop::Trap(Cause::Misfit, place)),
    }
    Ok(values)
}

/// A number, where it is an int.
pub fn number<'a>(number: u64, place: usize) -> Result<Held<'a>, Stop>
    ensures { RunEnds result (number_run number place) }
{
    match i64::try_from(number) {
        Ok(number) => Ok(Held::int(number)),
        Err(_) => Err(Stop::Trap(Cause::Range, place)),
    }
}

/// The length of bytes, a list or objects.
fn length<'a>(held: &Held<'a>, place: usize) -> Result<Held<'a>, Stop>
    ensures { RunEnds result (unary Unary.Len place held.now) }
{
    match held.length() {
        Some(length) => number(length as u64, place),
        None => Err(Stop::Trap(Cause::Misfit, place)),
    }
}

/// The hash of bytes.
fn hash<'a>(alloc: Global, held: &Held<'a>, place: usize) -> Result<Held<'a>, Stop>
    ensures { RunEnds result (unary Unary.Sha256 place held.now) }
{
    match held.as_bytes() {
        Some(bytes) => {
            let digest: [u8; 32] = Sha256::digest(bytes);
            let bytes = Sequence::from_vec(Vec::from_slice(alloc, digest.as_slice())?);
            Ok(Held::plain(Shared::bytes(alloc, bytes)?))
        }
        None => Err(Stop::Trap(Cause::Misfit, place)),
    }
}

/// What is made of one part.
pub fn apply_unary<'a>(
    alloc: Global,
    operation: Unary,
    held: &Held<'a>,
    place: usize,
) -> Result<Held<'a>, Stop>
    ensures { RunEnds result (unary operation place held.now) }
{
    match operation {
        Unary::Len => length(held, place),
        Unary::Sha256 => hash(alloc, held, place),
        Unary::Not => Ok(Held::truth(!given_bool(held, place)?)),
        Unary::Negative => Ok(Held::int(negate(given_int(held, place)?, place)?)),
    }
}

/// Bytes one behind the other.
fn join_bytes<'a>(alloc: Global, front: &[u8], back: &[u8], place: usize) -> Result<Held<'a>, Stop>
    ensures { RunEnds result (joined_bytes front.now back.now place) }
{
    if back.len() > MOST_BYTES || front.len() > MOST_BYTES - back.len() {
        return Err(Stop::Trap(Cause::Length, place));
    }
    let mut bytes = Vec::with_capacity(alloc, front.len() + back.len())?;
    bytes.extend_from_slice(front)?;
    bytes.extend_from_slice(back)?;
    Ok(Held::plain(Shared::bytes(alloc, Sequence::from_vec(bytes))?))
}

/// Adds items, which are shared.
fn put_items<'a>(items: &mut Vec<Shared<'a>>, more: &[Shared<'a>]) -> Result<(), Memory>
    ensures { OnOk result (items.new.items ≡ items.old.items ++ more.now) }
{
    for item in more {
        items.push(item.share()?)?;
    }
    Ok(())
}

/// Lists one behind the other.
fn join_lists<'a>(
    alloc: Global,
    front: &[Shared<'a>],
    back: &[Shared<'a>],
    place: usize,
) -> Result<Held<'a>, Stop>
    ensures { RunEnds result (joined_lists front.now back.now place) }
{
    if back.len() > MOST_ITEMS || front.len() > MOST_ITEMS - back.len() {
        return Err(Stop::Trap(Cause::Length, place));
    }
    let mut items = Vec::with_capacity(alloc, front.len() + back.len())?;
    put_items(&mut items, front)?;
    put_items(&mut items, back)?;
    list_of(alloc, Sequence::from_vec(items), place)
}

fn join_values<'a>(
    alloc: Global,
    front: &Shared<'a>,
    back: &Shared<'a>,
    place: usize,
) -> Result<Held<'a>, Stop>
    ensures { RunEnds result (joined_layers (out-Value front.now) (out-Value back.now) place) }
{
    match (front.open(), back.open()) {
        (Open::Bytes(front), Open::Bytes(back)) => join_bytes(alloc, front, back, place),
        (Open::List(front), Open::List(back)) => join_lists(alloc, front, back, place),
        _ => Err(Stop::Trap(Cause::Misfit, place)),
    }
}

/// Bytes with bytes, or a list with a list.
fn join<'a>(alloc: Global, front: Held<'a>, back: Held<'a>, place: usize) -> Result<Held<'a>, Stop>
    ensures { RunEnds result (joined place front.entry back.entry) }
{
    let front = given_value(front, place)?;
    let back = given_value(back, place)?;
    join_values(alloc, &front, &back, place)
}

/// Whether two bytes are one.
fn same_bytes(left: &Held<'_>, right: &Held<'_>) -> Option<bool>
    ensures { result ≡ both bytes_eq (bytes_of_datum left.now) (bytes_of_datum right.now) }
{
    match (left.as_bytes(), right.as_bytes()) {
        (Some(left), Some(right)) => Some(left == right),
        _ => None,
    }
}

/// Whether two bools or two bytes are one.
fn same(left: &Held<'_>, right: &Held<'_>) -> Option<bool>
    ensures { result ≡ same_in left.now right.now }
{
    match (left.as_bool(), right.as_bool()) {
        (Some(left), Some(right)) => Some(left == right),
        _ => same_bytes(left, right),
    }
}

/// What an equality says of two that are one, or aren't.
fn equal(comparison: Comparison, same: bool) -> Option<bool>
    ensures { result ≡ equality comparison same }
{
    match comparison {
        Comparison::Equal => Some(same),
        Comparison::NotEqual => Some(!same),
        _ => None,
    }
}

/// Whether a comparison holds.
fn holds(comparison: Comparison, left: &Held<'_>, right: &Held<'_>) -> Option<bool>
    ensures { result ≡ compared_in comparison left.now right.now }
{
    match (left.as_int(), right.as_int()) {
        (Some(x), Some(y)) => Some(compare(comparison, x, y)),
        _ => equal(comparison, same(left, right)?),
    }
}

fn comparison_of<'a>(
    comparison: Comparison,
    left: &Held<'a>,
    right: &Held<'a>,
    place: usize,
) -> Result<Held<'a>, Stop>
    ensures { RunEnds result (compared comparison place left.now right.now) }
{
    match holds(comparison, left, right) {
        Some(truth) => Ok(Held::truth(truth)),
        None => Err(Stop::Trap(Cause::Misfit, place)),
    }
}

/// Whether the left side of an operator is all that counts.
pub fn decides(operator: Operator, left: &Held<'_>) -> bool
    ensures { result ≡ decides_all operator left.now }
{
    match operator {
        Operator::Or => left.as_bool() == Some(true),
        Operator::And => left.as_bool() == Some(false),
        _ => false,
    }
}

/// The right side, where the left one decided nothing.
fn right_bool<'a>(left: &Held<'a>, right: &Held<'a>, place: usize) -> Result<Held<'a>, Stop>
    ensures { RunEnds result (right_bool place left.now right.now) }
{
    given_bool(left, place)?;
    Ok(Held::truth(given_bool(right, place)?))
}

fn arithmetic<'a>(
    operator: Operator,
    left: &Held<'a>,
    right: &Held<'a>,
    place: usize,
) -> Result<Held<'a>, Stop>
    ensures { RunEnds result (arithmetic operator place left.now right.now) }
{
    let x = given_int(left, place)?;
    let y = given_int(right, place)?;
    Ok(Held::int(compute(operator, x, y, place)?))
}

/// Both sides of an operator.
fn link<'a>(
    operator: Operator,
    left: &Held<'a>,
    right: &Held<'a>,
    place: usize,
) -> Result<Held<'a>, Stop>
    ensures { RunEnds result (linked operator place left.now right.now) }
{
    match operator {
        Operator::Or => right_bool(left, right, place),
        Operator::And => right_bool(left, right, place),
        _ => arithmetic(operator, left, right, place),
    }
}

/// The item at a place.
#[tactic(auto, using(crate::proofs::Items::item_among))]
fn index<'a>(held: &Held<'a>, at: &Held<'a>, place: usize) -> Result<Held<'a>, Stop>
    ensures { RunEnds result (indexed place held.now at.now) }
{
    if !held.has_items() {
        return Err(Stop::Trap(Cause::Misfit, place));
    }
    let at = given_int(at, place)?;
    if at < 0 {
        return Err(Stop::Trap(Cause::Place, place));
    }
    match held.item(at as usize)? {
        Some(item) => Ok(item),
        None => Err(Stop::Trap(Cause::Place, place)),
    }
}

/// What is made of two parts.
pub fn apply_binary<'a>(
    alloc: Global,
    operation: Binary,
    left: Held<'a>,
    right: Held<'a>,
    place: usize,
) -> Result<Held<'a>, Stop>
    ensures { RunEnds result (binary operation place left.entry right.entry) }
{
    match operation {
        Binary::Concat => join(alloc, left, right, place),
        Binary::Compared(comparison) => comparison_of(comparison, &left, &right, place),
        Binary::Linked(operator) => link(operator, &left, &right, place),
        Binary::Index => index(&left, &right, place),
    }
}
