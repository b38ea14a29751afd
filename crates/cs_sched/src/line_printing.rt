//! One line of a schedule, printed.
ghost use Rattle.std.specs.Prelude.{◌≡◌, ◌++◌, ◌∷◌, OnOk, OnErr};
ghost use Rattle.cs_base.specs.Lines.{views};
ghost use Rattle.cs_tx_value.specs.Reading.{Begins};
ghost use Rattle.cs_text.specs.Printed.{line_text, number_words, name_words, bytes_words};

use cs_base::{Memory, NodeId, Writer, print_bytes};
use std::alloc::Global;

// Appends the word, each field behind a space, and LF.
pub(crate) fn print_line(word: &[u8], fields: &[&[u8]], out: &mut Writer) -> Result<(), Memory>
    ensures ok { OnOk result (out.new ≡ out.old ++ line_text (word.now ∷ views fields.now)) }
    ensures err { OnErr result (Begins out.new out.old) }
{
    out.take(word)?;
    for field in fields {
        out.u8(b' ')?;
        out.take(field)?;
    }
    out.u8(b'\n')
}

#[tactic(auto, using(crate::proofs::Texts::unchanged))]
pub(crate) fn print_number(
    alloc: Global,
    word: &[u8],
    number: u64,
    out: &mut Writer,
) -> Result<(), Memory>
    ensures ok { OnOk result (out.new ≡ out.old ++ line_text (number_words word.now number)) }
    ensures err { OnErr result (Begins out.new out.old) }
{
    let number = format!(in alloc; "{number}")?;
    print_line(word, &[number.as_bytes()], out)
}

#[tactic(auto, using(crate::proofs::Texts::unchanged))]
pub(crate) fn print_name(
    alloc: Global,
    word: &[u8],
    name: NodeId,
    out: &mut Writer,
) -> Result<(), Memory>
    ensures ok { OnOk result (out.new ≡ out.old ++ line_text (name_words word.now name)) }
    ensures err { OnErr result (Begins out.new out.old) }
{
    let name = format!(in alloc; "{name}")?;
    print_line(word, &[name.as_bytes()], out)
}

pub(crate) fn print_bytes_line(
    alloc: Global,
    word: &[u8],
    bytes: &[u8],
    out: &mut Writer,
) -> Result<(), Memory>
    ensures ok { OnOk result (out.new ≡ out.old ++ line_text (bytes_words word.now bytes.now)) }
    ensures err { OnErr result (Begins out.new out.old) }
{
    let bytes = print_bytes(alloc, bytes)?;
    print_line(word, &[bytes.as_bytes()], out)
}
