//! Printing kinds.
ghost use Rattle.std.specs.Prelude.{OnErr};
ghost use Rattle.cs_lang_print.specs.Words.{Appends, GoesOnBehind};
ghost use Rattle.cs_lang_print.specs.Expressions.{kind_text};
ghost use Rattle.cs_lang_print.specs.Spelling.{in_brackets};

use crate::words::put_word;
use cs_lang::ValueKind;
use std::alloc::AllocError;

/// The kind of a list's items, in brackets.
#[cycle(kinds)]
fn put_items(items: &ValueKind, out: &mut Vec<u8>) -> Result<(), AllocError>
    ensures text { Appends result out.old out.new (in_brackets (kind_text items.now)) }
    ensures front { OnErr result (GoesOnBehind out.new.items out.old.items) }
{
    put_word(b"[", out)?;
    put_kind(items, out)?;
    put_word(b"]", out)
}

/// A kind.
#[cycle(kinds)]
#[tactic(auto, using(crate::proofs::KindTexts::kinds))]
pub fn put_kind(kind: &ValueKind, out: &mut Vec<u8>) -> Result<(), AllocError>
    ensures text { Appends result out.old out.new (kind_text kind.now) }
    ensures front { OnErr result (GoesOnBehind out.new.items out.old.items) }
{
    match kind {
        ValueKind::Int => put_word(b"int", out),
        ValueKind::Bool => put_word(b"bool", out),
        ValueKind::Bytes => put_word(b"bytes", out),
        ValueKind::List(items) => put_items(items.get(), out),
    }
}
