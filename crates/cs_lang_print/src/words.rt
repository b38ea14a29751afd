//! Tokens of a printed text.
ghost use Rattle.std.specs.Prelude.{◌≡◌, ◌<◌, OnErr};
ghost use Rattle.std.specs.Fmt.{decimal};
ghost use Rattle.cs_lang_print.specs.Words.{word, ending, hex_digit, hex_text, quoted, operator_text, comparison_text, Appends, GoesOnBehind};

use cs_lang::{Comparison, Operator};
use std::alloc::{AllocError, Global};

/// A token on a line, and a space.
#[tactic(auto, unfolding(crate::specs::Words::word))]
pub fn put_word(token: &[u8], out: &mut Vec<u8>) -> Result<(), AllocError>
    ensures text { Appends result out.old out.new (word token.now) }
    ensures front { OnErr result (GoesOnBehind out.new.items out.old.items) }
{
    out.extend_from_slice(token)?;
    out.extend_from_slice(b" ")
}

/// The last token of a line, and a break.
#[tactic(auto, unfolding(crate::specs::Words::ending))]
pub fn put_ending(token: &[u8], out: &mut Vec<u8>) -> Result<(), AllocError>
    ensures text { Appends result out.old out.new (ending token.now) }
    ensures front { OnErr result (GoesOnBehind out.new.items out.old.items) }
{
    out.extend_from_slice(token)?;
    out.extend_from_slice(b"\n")
}

/// The small hex digit of a number below 16.
fn hex_digit(number: u8) -> u8
    requires { number < 16 }
    ensures { result ≡ hex_digit number }
{
    if number < 10 {
        b'0' + number
    } else {
        b'W' + number
    }
}

/// Two hex digits for each byte.
fn put_hex(bytes: &[u8], out: &mut Vec<u8>) -> Result<(), AllocError>
    ensures text { Appends result out.old out.new (hex_text bytes.now) }
    ensures front { OnErr result (GoesOnBehind out.new.items out.old.items) }
{
    for byte in bytes {
        let digits = [hex_digit(*byte / 16), hex_digit(*byte % 16)];
        out.extend_from_slice(&digits)?;
    }
    Ok(())
}

/// A byte text on a line.
#[tactic(auto, unfolding(crate::specs::Words::quoted))]
pub fn put_quoted(bytes: &[u8], out: &mut Vec<u8>) -> Result<(), AllocError>
    ensures text { Appends result out.old out.new (quoted bytes.now) }
    ensures front { OnErr result (GoesOnBehind out.new.items out.old.items) }
{
    out.extend_from_slice(b"x\"")?;
    put_hex(bytes, out)?;
    out.extend_from_slice(b"\" ")
}

/// A number on a line.
#[tactic(auto, using(crate::proofs::Begun::unchanged))]
pub fn put_number(alloc: Global, number: u64, out: &mut Vec<u8>) -> Result<(), AllocError>
    ensures text { Appends result out.old out.new (word (decimal number)) }
    ensures front { OnErr result (GoesOnBehind out.new.items out.old.items) }
{
    let text = format!(in alloc; "{number}")?;
    put_word(text.as_bytes(), out)
}

/// An operator on a line.
pub fn put_operator(operator: Operator, out: &mut Vec<u8>) -> Result<(), AllocError>
    ensures text { Appends result out.old out.new (word (operator_text operator)) }
    ensures front { OnErr result (GoesOnBehind out.new.items out.old.items) }
{
    match operator {
        Operator::Or => put_word(b"or", out),
        Operator::And => put_word(b"and", out),
        Operator::Plus => put_word(b"+", out),
        Operator::Minus => put_word(b"-", out),
        Operator::Times => put_word(b"*", out),
        Operator::Divide => put_word(b"/", out),
        Operator::Remainder => put_word(b"%", out),
    }
}

/// A comparison on a line.
pub fn put_comparison(comparison: Comparison, out: &mut Vec<u8>) -> Result<(), AllocError>
    ensures text { Appends result out.old out.new (word (comparison_text comparison)) }
    ensures front { OnErr result (GoesOnBehind out.new.items out.old.items) }
{
    match comparison {
        Comparison::Equal => put_word(b"==", out),
        Comparison::NotEqual => put_word(b"!=", out),
        Comparison::Less => put_word(b"<", out),
        Comparison::LessOrEqual => put_word(b"<=", out),
        Comparison::Greater => put_word(b">", out),
        Comparison::GreaterOrEqual => put_word(b">=", out),
    }
}
