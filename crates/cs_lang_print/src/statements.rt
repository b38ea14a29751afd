//! Printing statements, one on a line.
ghost use Rattle.std.specs.Prelude.{◌++◌, codes, OnErr};
ghost use Rattle.std.specs.Fmt.{decimal};
ghost use Rattle.cs_lang_print.specs.Words.{word, each_text, behind_comma, Appends, GoesOnBehind};
ghost use Rattle.cs_lang_print.specs.Expressions.{expr_text};
ghost use Rattle.cs_lang_print.specs.Statements.{name_text, arguments_text, bound_text, assigned, block_until, block_text, statements_text, statement_text, make_text, call_text, answer_text};

use crate::expressions::{put_expr, put_list};
use crate::words::{put_ending, put_number, put_word};
use cs_lang::{Action, Block, Expr, Statement, Text};
use std::alloc::{AllocError, Global};

/// A name.
pub fn put_name(name: &Text, out: &mut Vec<u8>) -> Result<(), AllocError>
    ensures text { Appends result out.old out.new (name_text name.now) }
    ensures front { OnErr result (GoesOnBehind out.new.items out.old.items) }
{
    put_word(name.bytes.as_slice(), out)
}

/// A name behind a comma.
fn put_other_name(name: &Text, out: &mut Vec<u8>) -> Result<(), AllocError>
    ensures text { Appends result out.old out.new (behind_comma name_text name.now) }
    ensures front { OnErr result (GoesOnBehind out.new.items out.old.items) }
{
    put_word(b",", out)?;
    put_name(name, out)
}

/// Names, each behind a comma.
fn put_other_names(names: &[Text], out: &mut Vec<u8>) -> Result<(), AllocError>
    ensures text { Appends result out.old out.new (each_text (behind_comma name_text) names.now) }
    ensures front { OnErr result (GoesOnBehind out.new.items out.old.items) }
{
    for name in names {
        put_other_name(name, out)?;
    }
    Ok(())
}

/// The names that a call binds.
fn put_bound(names: &[Text], out: &mut Vec<u8>) -> Result<(), AllocError>
    ensures text { Appends result out.old out.new (bound_text names.now) }
    ensures front { OnErr result (GoesOnBehind out.new.items out.old.items) }
{
    match names {
        [] => Ok(()),
        [first, others @ ..] => {
            put_name(first, out)?;
            put_other_names(others, out)?;
            put_word(b"=", out)
        }
    }
}

/// Arguments in their parentheses.
fn put_arguments(alloc: Global, items: &[Expr], out: &mut Vec<u8>) -> Result<(), AllocError>
    ensures text { Appends result out.old out.new (arguments_text items.now) }
    ensures front { OnErr result (GoesOnBehind out.new.items out.old.items) }
{
    put_word(b"(", out)?;
    put_list(alloc, items, out)?;
    put_word(b")", out)
}

/// A name and the value that it gets.
fn put_value(
    alloc: Global,
    first: &[u8],
    name: &Text,
    value: &Expr,
    out: &mut Vec<u8>,
) -> Result<(), AllocError>
    ensures text { Appends result out.old out.new (assigned first.now name.now value.now) }
    ensures front { OnErr result (GoesOnBehind out.new.items out.old.items) }
{
    put_word(first, out)?;
    put_name(name, out)?;
    put_word(b"=", out)?;
    put_expr(alloc, value, out)?;
    put_ending(b";", out)
}

/// What fills a slot.
fn put_make(
    alloc: Global,
    slot: &Text,
    object: &Text,
    values: &[Expr],
    out: &mut Vec<u8>,
) -> Result<(), AllocError>
    ensures text { Appends result out.old out.new (make_text slot.now object.now values.now) }
    ensures front { OnErr result (GoesOnBehind out.new.items out.old.items) }
{
    put_word(b"make", out)?;
    put_name(slot, out)?;
    put_word(b"=", out)?;
    put_name(object, out)?;
    put_arguments(alloc, values, out)?;
    put_ending(b";", out)
}

/// A call.
fn put_call(
    alloc: Global,
    names: &[Text],
    method: &Text,
    arguments: &[Expr],
    out: &mut Vec<u8>,
) -> Result<(), AllocError>
    ensures text { Appends result out.old out.new (call_text names.now method.now arguments.now) }
    ensures front { OnErr result (GoesOnBehind out.new.items out.old.items) }
{
    put_word(b"call", out)?;
    put_bound(names, out)?;
    put_name(method, out)?;
    put_arguments(alloc, arguments, out)?;
    put_ending(b";", out)
}

/// What a check answers.
fn put_answer(alloc: Global, value: &Expr, out: &mut Vec<u8>) -> Result<(), AllocError>
    ensures text { Appends result out.old out.new (answer_text value.now) }
    ensures front { OnErr result (GoesOnBehind out.new.items out.old.items) }
{
    put_word(b"answer", out)?;
    put_expr(alloc, value, out)?;
    put_ending(b";", out)
}

/// The condition of blocks.
fn put_condition(alloc: Global, condition: &Expr, out: &mut Vec<u8>) -> Result<(), AllocError>
    ensures text { Appends result out.old out.new (word (codes "if") ++ expr_text condition.now) }
    ensures front { OnErr result (GoesOnBehind out.new.items out.old.items) }
{
    put_word(b"if", out)?;
    put_expr(alloc, condition, out)
}

/// The items that a loop goes over.
fn put_for_in(alloc: Global, name: &Text, list: &Expr, out: &mut Vec<u8>) -> Result<(), AllocError>
    ensures text { Appends result out.old out.new (word (codes "for") ++ (name_text name.now
        ++ (word (codes "in") ++ expr_text list.now))) }
    ensures front { OnErr result (GoesOnBehind out.new.items out.old.items) }
{
    put_word(b"for", out)?;
    put_name(name, out)?;
    put_word(b"in", out)?;
    put_expr(alloc, list, out)
}

/// What a loop does with numbers.
#[cycle(printing)]
fn put_for_to(
    alloc: Global,
    name: &Text,
    count: u64,
    block: &Block,
    out: &mut Vec<u8>,
) -> Result<(), AllocError>
    ensures text { Appends result out.old out.new (word (codes "for") ++ (name_text name.now
        ++ ((word (codes "to") ++ word (decimal count)) ++ block_text (statements_text block.now)))) }
    ensures front { OnErr result (GoesOnBehind out.new.items out.old.items) }
{
    put_word(b"for", out)?;
    put_name(name, out)?;
    put_word(b"to", out)?;
    put_number(alloc, count, out)?;
    put_block(alloc, block, out)
}

/// A statement.
#[cycle(printing)]
#[tactic(auto, using(crate::proofs::Actions::actions))]
fn put_statement(alloc: Global, one: &Statement, out: &mut Vec<u8>) -> Result<(), AllocError>
    ensures text { Appends result out.old out.new (statement_text one.now) }
    ensures front { OnErr result (GoesOnBehind out.new.items out.old.items) }
{
    match &one.action {
        Action::Let(name, value) => put_value(alloc, b"let", name, value, out),
        Action::Set(name, value) => put_value(alloc, b"set", name, value, out),
        Action::If(condition, block) => {
            put_condition(alloc, condition, out)?;
            put_block(alloc, block, out)
        }
        Action::IfElse(condition, block, other) => {
            put_condition(alloc, condition, out)?;
            put_block_before_else(alloc, block, out)?;
            put_block(alloc, other, out)
        }
        Action::ForIn(name, list, block) => {
            put_for_in(alloc, name, list, out)?;
            put_block(alloc, block, out)
        }
        Action::ForTo(name, count, block) => put_for_to(alloc, name, *count, block, out),
        Action::Make(slot, object, values) => {
            put_make(alloc, slot, object, values.as_slice(), out)
        }
        Action::Call(names, method, arguments) => {
            put_call(alloc, names.as_slice(), method, arguments.as_slice(), out)
        }
        Action::Answer(value) => put_answer(alloc, value, out),
    }
}

/// Statements.
#[cycle(printing)]
fn put_all(alloc: Global, statements: &[Statement], out: &mut Vec<u8>) -> Result<(), AllocError>
    ensures text { Appends result out.old out.new (each_text statement_text statements.now) }
    ensures front { OnErr result (GoesOnBehind out.new.items out.old.items) }
{
    for one in statements {
        put_statement(alloc, one, out)?;
    }
    Ok(())
}

/// The statements of a block.
#[cycle(printing)]
#[tactic(auto, using(crate::proofs::Actions::blocks))]
fn put_statements(alloc: Global, block: &Block, out: &mut Vec<u8>) -> Result<(), AllocError>
    ensures text { Appends result out.old out.new (statements_text block.now) }
    ensures front { OnErr result (GoesOnBehind out.new.items out.old.items) }
{
    put_all(alloc, block.statements.as_slice(), out)
}

/// A block with `else` behind it.
#[cycle(printing)]
fn put_block_before_else(alloc: Global, block: &Block, out: &mut Vec<u8>) -> Result<(), AllocError>
    ensures text { Appends result out.old out.new
        (block_until (word (codes "}")) (statements_text block.now) ++ word (codes "else")) }
    ensures front { OnErr result (GoesOnBehind out.new.items out.old.items) }
{
    put_ending(b"{", out)?;
    put_statements(alloc, block, out)?;
    put_word(b"}", out)?;
    put_word(b"else", out)
}

/// A block in its braces.
#[cycle(printing)]
pub fn put_block(alloc: Global, block: &Block, out: &mut Vec<u8>) -> Result<(), AllocError>
    ensures text { Appends result out.old out.new (block_text (statements_text block.now)) }
    ensures front { OnErr result (GoesOnBehind out.new.items out.old.items) }
{
    put_ending(b"{", out)?;
    put_statements(alloc, block, out)?;
    put_ending(b"}", out)
}
