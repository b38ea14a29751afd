//! What the commands of a wallet print.
ghost use Rattle.std.specs.Prelude.{◌≡◌, ◌≢◌, ◌≤◌, ◌++◌, IfOk, OnOk, codes, string_bytes};
ghost use Rattle.hex.specs.Hex.{encode_lower};
ghost use Rattle.cs_base.specs.Outside.{HasCause};
ghost use Rattle.cs_base.specs.Answers.{Answers};
ghost use Rattle.cs_io.specs.Outside.{Faulty};
ghost use Rattle.cs_onetime.specs.Signature.{texts_in};
ghost use Rattle.cs_wallet.specs.Commands.{key_answer, part_lines};
ghost use Rattle.cs_wallet.specs.Refusals.{refusal_answer, TellsUntaken};

use crate::cause::{Cause, Untaken};
use cs_base::{Memory, Sink, print};
use cs_io::closing;
use cs_onetime::{Wallet, public_key};
use std::alloc::Global;

/// Prints a text, and answers this status where all of it was written, 6 where the sink failed, and
/// 8 for want of memory.
pub(crate) fn tell<K: Sink>(out: &mut K, text: &[u8], status: u8) -> u8
    ensures answers { Answers (record { status = status; printed = text.now })
        (K.written out.old) (K.written out.new) result }
    ensures faults { K.faults out.old ≤ K.faults out.new }
    ensures cause { status ≢ 6 → result ≡ 6 → Faulty K.faults out.old out.new }
{
    closing(print(out, text), status)
}

fn refusal_line(alloc: Global, name: &str, cause: Cause) -> Result<String, Memory>
    ensures { IfOk result (λ line. string_bytes line ≡ (refusal_answer name.now cause).printed) }
{
    Ok(format!(in alloc; "store {name} {}\n", cause.text())?)
}

/// Tells that the file of this name isn't taken, or isn't saved.
pub(crate) fn refuse_file<K: Sink>(alloc: Global, name: &str, cause: Cause, out: &mut K) -> u8
    ensures answers { Answers (refusal_answer name.now cause)
        (K.written out.old) (K.written out.new) result }
    ensures cause { HasCause (K.faults out.old) (K.faults out.new) (result ≡ 6) }
{
    match refusal_line(alloc, name, cause) {
        Ok(line) => tell(out, line.as_bytes(), 12),
        Err(_) => 8,
    }
}

/// Tells why the file of this name isn't taken.
pub(crate) fn refuse<K: Sink>(alloc: Global, name: &str, why: Untaken, out: &mut K) -> u8
    ensures tells { TellsUntaken name.now why (K.written out.old) (K.written out.new) result }
    ensures cause { HasCause (K.faults out.old) (K.faults out.new) (result ≡ 6) }
{
    match why {
        Untaken::Refused(cause) => refuse_file(alloc, name, cause, out),
        Untaken::Memory => 8,
    }
}

/// Prints the public key of a number.
pub(crate) fn tell_key<K: Sink>(alloc: Global, wallet: &Wallet, number: u64, out: &mut K) -> u8
    ensures answers { Answers (key_answer number wallet.now)
        (K.written out.old) (K.written out.new) result }
    ensures cause { HasCause (K.faults out.old) (K.faults out.new) (result ≡ 6) }
{
    match key_line(alloc, wallet, number) {
        Ok(line) => tell(out, line.as_bytes(), 0),
        Err(_) => 8,
    }
}

// The line of the public key of a number.
fn key_line(alloc: Global, wallet: &Wallet, number: u64) -> Result<String, Memory>
    ensures { IfOk result (λ line. string_bytes line ≡ (key_answer number wallet.now).printed) }
{
    let key = hex::encode(alloc, public_key(&wallet.seed, number).as_slice())?;
    Ok(format!(in alloc; "key {number} {key}\n")?)
}

fn add_line(alloc: Global, lines: &mut Vec<u8>, text: &[u8]) -> Result<(), Memory>
    ensures { OnOk result (lines.new.items
        ≡ lines.old.items ++ (codes "part " ++ (encode_lower text.now ++ codes "\n"))) }
{
    let part = hex::encode(alloc, text)?;
    let line = format!(in alloc; "part {part}\n")?;
    lines.extend_from_slice(line.as_bytes())?;
    Ok(())
}

/// The lines of the texts of a signature.
pub(crate) fn part_lines(alloc: Global, texts: &[Vec<u8>]) -> Result<Vec<u8>, Memory>
    ensures { IfOk result (λ lines. lines.items ≡ part_lines (texts_in texts.now)) }
{
    let mut lines = Vec::new(alloc);
    for text in texts {
        add_line(alloc, &mut lines, text.as_slice())?;
    }
    Ok(lines)
}
