//! Reading values.
ghost use Rattle.std.specs.Prelude.{◌≡◌, ◌-◌, ◌<◌, ◌^◌, ◌∷◌, IfOk};
ghost use Rattle.cs_lang_token.specs.Answers.{ReaderGives};
ghost use Rattle.cs_lang_token.specs.declared.limits.TheConstants.{MOST_ITEMS};
ghost use Rattle.cs_cases.specs.Grammar.{row_onward, row_at, one_more_at, listed, number_level, plain_level, value_level, values_level};

use cs_base::Sequence;
use cs_lang_token::{Cursor, Kind, MOST_ITEMS, MOST_LISTS, Stop};
use cs_tx_value::Value;
use std::alloc::Global;

/// The first number that no int is.
const BEYOND: u64 = 9_223_372_036_854_775_808;

// A number that is an int.
fn number(cursor: &mut Cursor<'_>) -> Result<u64, Stop>
    ensures gives { ReaderGives result cursor.new (number_level cursor.old) }
    ensures small { IfOk result (λ n. n < 2 ^ 63) }
{
    let number = cursor.number()?;
    if number.value < BEYOND {
        return Ok(number.value);
    }
    Err(Stop::Syntax)
}

// A value that is no list.
fn plain(alloc: Global, cursor: &mut Cursor<'_>) -> Result<Value, Stop>
    ensures { ReaderGives result cursor.new (plain_level cursor.old) }
{
    if cursor.at(Kind::Number) {
        return Ok(Value::Int(number(cursor)? as i64));
    }
    if cursor.at(Kind::Minus) {
        cursor.sign(Kind::Minus)?;
        return Ok(Value::Int(-(number(cursor)? as i64)));
    }
    if cursor.at(Kind::Bytes) {
        return Ok(Value::Bytes(cursor.bytes(alloc)?.bytes));
    }
    if cursor.at(Kind::True) {
        cursor.sign(Kind::True)?;
        return Ok(Value::Bool(true));
    }
    cursor.sign(Kind::False)?;
    Ok(Value::Bool(false))
}

// A value of lists so deep at most.
#[cycle(values)]
#[tactic(auto, using(crate::proofs::Levels::value_is))]
fn value(alloc: Global, cursor: &mut Cursor<'_>, left: u8) -> Result<Value, Stop>
    ensures { ReaderGives result cursor.new (value_level left cursor.old) }
{
    if !cursor.at(Kind::OpenList) {
        return plain(alloc, cursor);
    }
    if left == 0 {
        return Err(Stop::Syntax);
    }
    list(alloc, cursor, left - 1)
}

// A list of values of lists so deep at most.
#[cycle(values)]
fn list(alloc: Global, cursor: &mut Cursor<'_>, left: u8) -> Result<Value, Stop>
    ensures { ReaderGives result cursor.new (listed (value_level left) cursor.old) }
{
    cursor.sign(Kind::OpenList)?;
    Ok(Value::List(row(alloc, cursor, Kind::CloseList, left)?))
}

// Values up to the closing bracket.
#[cycle(values)]
fn row(
    alloc: Global,
    cursor: &mut Cursor<'_>,
    close: Kind,
    left: u8,
) -> Result<Sequence<Value>, Stop>
    ensures { ReaderGives result cursor.new (row_at close (value_level left) cursor.old) }
{
    let mut all = Sequence::new(alloc);
    if cursor.at(close) {
        cursor.sign(close)?;
        return Ok(all);
    }
    all.push(value(alloc, cursor, left)?)?;
    row_behind(alloc, cursor, close, left, all)
}

// Values behind the first, each behind a comma, up to the closing bracket.
#[cycle(values)]
fn row_behind(
    alloc: Global,
    cursor: &mut Cursor<'_>,
    close: Kind,
    left: u8,
    first: Sequence<Value>,
) -> Result<Sequence<Value>, Stop>
    ensures { ReaderGives result cursor.new
        (row_onward close (value_level left) MOST_ITEMS first cursor.old) }
{
    let mut all = first;
    for _ in 0..MOST_ITEMS {
        if cursor.at(close) {
            cursor.sign(close)?;
            return Ok(all);
        }
        all = one_more(alloc, cursor, left, all)?;
    }
    Err(Stop::Syntax)
}

// A comma and a value behind others.
#[cycle(values)]
fn one_more(
    alloc: Global,
    cursor: &mut Cursor<'_>,
    left: u8,
    others: Sequence<Value>,
) -> Result<Sequence<Value>, Stop>
    ensures { ReaderGives result cursor.new (one_more_at (value_level left) others cursor.old) }
{
    let mut all = others;
    cursor.sign(Kind::Comma)?;
    all.push(value(alloc, cursor, left)?)?;
    Ok(all)
}

/// Values in parentheses.
pub fn values(alloc: Global, cursor: &mut Cursor<'_>) -> Result<Sequence<Value>, Stop>
    ensures { ReaderGives result cursor.new (values_level cursor.old) }
{
    cursor.sign(Kind::Open)?;
    row(alloc, cursor, Kind::Close, MOST_LISTS)
}
