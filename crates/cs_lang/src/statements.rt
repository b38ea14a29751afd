//! Reading statements.
ghost use Rattle.std.specs.Prelude.{◌≡◌, length};
ghost use Rattle.cs_lang_token.specs.Answers.{ReaderGives};
ghost use Rattle.cs_lang_token.specs.Kinds.{is};
ghost use Rattle.cs_lang_token.specs.Grammar.{begins};
ghost use Rattle.cs_lang.specs.Readers.{expression_kinds, statement_kinds, optional_items, arguments_level, let_level, set_level, if_level, for_level, make_level, names_at, names_onward, names_turn, call_level, answer_level, statement_level, statements_level, statements_onward, statements_turn, block_level};

use crate::expressions::{chain, items};
use crate::tree::{Action, Block, Expr, Rank, Statement};
use cs_base::Sequence;
use cs_lang_token::{Cursor, Kind, Stop, Text};
use std::alloc::Global;

/// Whether an expression follows.
fn at_expression(cursor: &Cursor<'_>) -> bool
    ensures { result ≡ begins (is expression_kinds) cursor.now }
{
    cursor.at_any(&[
        Kind::Not,
        Kind::Minus,
        Kind::Open,
        Kind::OpenList,
        Kind::Number,
        Kind::Bytes,
        Kind::Name,
        Kind::True,
        Kind::False,
        Kind::Empty,
        Kind::Len,
        Kind::Sha256,
        Kind::Concat,
        Kind::Called,
        Kind::DepInt,
    ])
}

/// Whether a statement follows.
fn at_statement(cursor: &Cursor<'_>) -> bool
    ensures { result ≡ begins (is statement_kinds) cursor.now }
{
    cursor.at_any(&[
        Kind::Let,
        Kind::Set,
        Kind::If,
        Kind::For,
        Kind::Make,
        Kind::Call,
        Kind::Answer,
    ])
}

/// Expressions with commas between them, of which there may be none.
#[tactic(auto, unfolding(crate::specs::Readers::optional_items))]
fn optional_items(alloc: Global, cursor: &mut Cursor<'_>, left: u8) -> Result<Sequence<Expr>, Stop>
    ensures { ReaderGives result cursor.new (optional_items left cursor.old) }
{
    if at_expression(cursor) {
        return items(alloc, cursor, left);
    }
    Ok(Sequence::new(alloc))
}

/// Arguments in their parentheses.
#[tactic(auto, unfolding(crate::specs::Readers::arguments_level), using(crate::proofs::Levels::inside_optional_is))]
fn arguments(alloc: Global, cursor: &mut Cursor<'_>, left: u8) -> Result<Sequence<Expr>, Stop>
    ensures { ReaderGives result cursor.new (arguments_level left cursor.old) }
{
    cursor.open(Kind::Open, left)?;
    let items = optional_items(alloc, cursor, left - 1)?;
    cursor.sign(Kind::Close)?;
    Ok(items)
}

/// A name for a value.
#[tactic(auto, unfolding(crate::specs::Readers::let_level))]
fn let_statement(alloc: Global, cursor: &mut Cursor<'_>, left: u8) -> Result<Statement, Stop>
    ensures { ReaderGives result cursor.new (let_level left cursor.old) }
{
    let place = cursor.sign(Kind::Let)?;
    let name = cursor.name(alloc)?;
    cursor.sign(Kind::Becomes)?;
    let value = chain(alloc, cursor, left, Rank::Or)?;
    cursor.sign(Kind::Semicolon)?;
    Ok(Statement {
        place,
        action: Action::Let(name, value),
    })
}

/// A new value for a name.
#[tactic(auto, unfolding(crate::specs::Readers::set_level))]
fn set_statement(alloc: Global, cursor: &mut Cursor<'_>, left: u8) -> Result<Statement, Stop>
    ensures { ReaderGives result cursor.new (set_level left cursor.old) }
{
    let place = cursor.sign(Kind::Set)?;
    let name = cursor.name(alloc)?;
    cursor.sign(Kind::Becomes)?;
    let value = chain(alloc, cursor, left, Rank::Or)?;
    cursor.sign(Kind::Semicolon)?;
    Ok(Statement {
        place,
        action: Action::Set(name, value),
    })
}

/// What is done where something holds, and perhaps what else.
#[cycle(statement)]
#[tactic(auto, unfolding(crate::specs::Readers::if_level))]
fn if_statement(alloc: Global, cursor: &mut Cursor<'_>, left: u8) -> Result<Statement, Stop>
    ensures { ReaderGives result cursor.new (if_level left cursor.old) }
{
    let place = cursor.sign(Kind::If)?;
    let condition = chain(alloc, cursor, left, Rank::Or)?;
    let then = block(alloc, cursor, left)?;
    if !cursor.at(Kind::Else) {
        return Ok(Statement {
            place,
            action: Action::If(condition, then),
        });
    }
    cursor.sign(Kind::Else)?;
    let other = block(alloc, cursor, left)?;
    Ok(Statement {
        place,
        action: Action::IfElse(condition, then, other),
    })
}

/// A loop.
#[cycle(statement)]
#[tactic(auto, unfolding(crate::specs::Readers::for_level))]
fn for_statement(alloc: Global, cursor: &mut Cursor<'_>, left: u8) -> Result<Statement, Stop>
    ensures { ReaderGives result cursor.new (for_level left cursor.old) }
{
    let place = cursor.sign(Kind::For)?;
    let name = cursor.name(alloc)?;
    if cursor.at(Kind::In) {
        cursor.sign(Kind::In)?;
        let list = chain(alloc, cursor, left, Rank::Or)?;
        let each = block(alloc, cursor, left)?;
        return Ok(Statement {
            place,
            action: Action::ForIn(name, list, each),
        });
    }
    cursor.sign(Kind::To)?;
    let count = cursor.number()?;
    let each = block(alloc, cursor, left)?;
    Ok(Statement {
        place,
        action: Action::ForTo(name, count.value, each),
    })
}

/// A new object.
#[tactic(auto, unfolding(crate::specs::Readers::make_level))]
fn make_statement(alloc: Global, cursor: &mut Cursor<'_>, left: u8) -> Result<Statement, Stop>
    ensures { ReaderGives result cursor.new (make_level left cursor.old) }
{
    let place = cursor.sign(Kind::Make)?;
    let slot = cursor.name(alloc)?;
    cursor.sign(Kind::Becomes)?;
    let object = cursor.name(alloc)?;
    let fields = arguments(alloc, cursor, left)?;
    cursor.sign(Kind::Semicolon)?;
    Ok(Statement {
        place,
        action: Action::Make(slot, object, fields),
    })
}

/// Names, each behind a comma.
#[tactic(auto, using(crate::proofs::Onward::names_is))]
fn names(alloc: Global, cursor: &mut Cursor<'_>) -> Result<Sequence<Text>, Stop>
    ensures { ReaderGives result cursor.new (names_at cursor.old) }
{
    other_names(alloc, cursor, Sequence::new(alloc))
}

/// Names behind others, each behind a comma.
fn other_names(
    alloc: Global,
    cursor: &mut Cursor<'_>,
    first: Sequence<Text>,
) -> Result<Sequence<Text>, Stop>
    ensures { ReaderGives result cursor.new (names_onward (length cursor.old) first cursor.old) }
{
    let mut all = first;
    for _ in 0..cursor.len() {
        if !cursor.at(Kind::Comma) {
            return Ok(all);
        }
        all = other_name(alloc, cursor, all)?;
    }
    if cursor.at(Kind::Comma) {
        return Err(Stop::Syntax);
    }
    Ok(all)
}

/// A comma and a name behind others.
#[tactic(auto, unfolding(crate::specs::Readers::names_turn))]
fn other_name(
    alloc: Global,
    cursor: &mut Cursor<'_>,
    others: Sequence<Text>,
) -> Result<Sequence<Text>, Stop>
    ensures { ReaderGives result cursor.new (names_turn others cursor.old) }
{
    let mut all = others;
    cursor.sign(Kind::Comma)?;
    let one = cursor.name(alloc)?;
    all.push(one)?;
    Ok(all)
}

/// A call of a method, with names for what it returns.
#[tactic(auto, unfolding(crate::specs::Readers::call_level))]
fn call_statement(alloc: Global, cursor: &mut Cursor<'_>, left: u8) -> Result<Statement, Stop>
    ensures { ReaderGives result cursor.new (call_level left cursor.old) }
{
    let place = cursor.sign(Kind::Call)?;
    let first = cursor.name(alloc)?;
    if cursor.at(Kind::Open) {
        let arguments = arguments(alloc, cursor, left)?;
        cursor.sign(Kind::Semicolon)?;
        return Ok(Statement {
            place,
            action: Action::Call(Sequence::new(alloc), first, arguments),
        });
    }
    let mut names = names(alloc, cursor)?.into_vec();
    names.insert(0, first)?;
    cursor.sign(Kind::Becomes)?;
    let method = cursor.name(alloc)?;
    let arguments = arguments(alloc, cursor, left)?;
    cursor.sign(Kind::Semicolon)?;
    Ok(Statement {
        place,
        action: Action::Call(Sequence::from_vec(names), method, arguments),
    })
}

/// The answer of a check.
#[tactic(auto, unfolding(crate::specs::Readers::answer_level))]
fn answer_statement(alloc: Global, cursor: &mut Cursor<'_>, left: u8) -> Result<Statement, Stop>
    ensures { ReaderGives result cursor.new (answer_level left cursor.old) }
{
    let place = cursor.sign(Kind::Answer)?;
    let value = chain(alloc, cursor, left, Rank::Or)?;
    cursor.sign(Kind::Semicolon)?;
    Ok(Statement {
        place,
        action: Action::Answer(value),
    })
}

/// A statement.
#[cycle(statement)]
#[tactic(auto, unfolding(crate::specs::Readers::statement_level))]
fn statement(alloc: Global, cursor: &mut Cursor<'_>, left: u8) -> Result<Statement, Stop>
    ensures { ReaderGives result cursor.new (statement_level left cursor.old) }
{
    if cursor.at(Kind::Let) {
        return let_statement(alloc, cursor, left);
    }
    if cursor.at(Kind::Set) {
        return set_statement(alloc, cursor, left);
    }
    if cursor.at(Kind::If) {
        return if_statement(alloc, cursor, left);
    }
    if cursor.at(Kind::For) {
        return for_statement(alloc, cursor, left);
    }
    if cursor.at(Kind::Make) {
        return make_statement(alloc, cursor, left);
    }
    if cursor.at(Kind::Call) {
        return call_statement(alloc, cursor, left);
    }
    answer_statement(alloc, cursor, left)
}

/// Statements, where so many more levels may be opened.
#[cycle(statement)]
#[tactic(auto, using(crate::proofs::Onward::statements_is))]
fn statements(alloc: Global, cursor: &mut Cursor<'_>, left: u8) -> Result<Sequence<Statement>, Stop>
    ensures { ReaderGives result cursor.new (statements_level left cursor.old) }
{
    other_statements(alloc, cursor, left, Sequence::new(alloc))
}

/// Statements behind others.
#[cycle(statement)]
fn other_statements(
    alloc: Global,
    cursor: &mut Cursor<'_>,
    left: u8,
    first: Sequence<Statement>,
) -> Result<Sequence<Statement>, Stop>
    ensures { ReaderGives result cursor.new
        (statements_onward left (length cursor.old) first cursor.old) }
{
    let mut all = first;
    for _ in 0..cursor.len() {
        if !at_statement(cursor) {
            return Ok(all);
        }
        all = other_statement(alloc, cursor, left, all)?;
    }
    if at_statement(cursor) {
        return Err(Stop::Syntax);
    }
    Ok(all)
}

/// A statement behind others.
#[cycle(statement)]
#[tactic(auto, unfolding(crate::specs::Readers::statements_turn))]
fn other_statement(
    alloc: Global,
    cursor: &mut Cursor<'_>,
    left: u8,
    others: Sequence<Statement>,
) -> Result<Sequence<Statement>, Stop>
    ensures { ReaderGives result cursor.new (statements_turn left others cursor.old) }
{
    let mut all = others;
    let one = statement(alloc, cursor, left)?;
    all.push(one)?;
    Ok(all)
}

/// Statements in braces, where so many more levels may be opened.
#[cycle(statement)]
#[tactic(auto, unfolding(crate::specs::Readers::block_level), using(crate::proofs::Levels::inside_statements_is))]
pub fn block(alloc: Global, cursor: &mut Cursor<'_>, left: u8) -> Result<Block, Stop>
    ensures { ReaderGives result cursor.new (block_level left cursor.old) }
{
    cursor.open(Kind::OpenBlock, left)?;
    let statements = statements(alloc, cursor, left - 1)?;
    let end = cursor.sign(Kind::CloseBlock)?;
    Ok(Block { statements, end })
}
