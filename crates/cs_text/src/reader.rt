//! The lines of a text, read one by one.
ghost use Rattle.std.specs.Prelude.{◌≡◌, ℕ, Ok};
ghost use Rattle.cs_base.specs.Lines.{views, fields_of};
ghost use Rattle.cs_text.specs.FirstBad.{RefusesFirstBad};
ghost use Rattle.cs_text.specs.Reading.{Moves, MovesText, GivesText, TextFails, Comes};
ghost use Rattle.cs_text.specs.Text.{TextForm, line_step, then_lines, whole, whole_read, part_read, whole_of};

use crate::cause::{Cause, Refusal};
use crate::error::{LineError, TextError};
use cs_base::{fields, split_at_byte, strip_return};
use std::alloc::Global;

/// What is read of a text line by line.
pub trait LineReader: Sized + Drop {
    /// What a text says that is whole.
    type Whole: Drop;

    /// How such a text is read.
    ghost form: { TextForm Self Self.Whole };

    /// Nothing was read yet.
    fn start(alloc: Global) -> Self
        ensures { result ≡ form.start };

    /// Takes the line of this number, of this word and these fields. Where it refuses the line,
    /// nothing more is read.
    fn take_words(
        &mut self,
        alloc: Global,
        number: u64,
        word: &[u8],
        fields: &[&[u8]],
    ) -> Result<(), LineError>
        ensures { Moves result self.new
            (form.step number self.old word.now (views fields.now)) };

    /// What was read, where nothing of it is missing.
    fn finish(self) -> Option<Self::Whole>
        ensures { result ≡ form.finish self };
}

/// What a text of at most so many bytes says, or its first bad line. A line without fields, and one
/// that begins with `#`, is passed over. Of a longer text the lines that end within that length are
/// read first; where none of them is bad the refusal is `Limit`, at the line in which the next byte
/// stands.
#[tactic(auto, unfolding(crate::specs::Text::whole_of))]
pub fn parse_text<R: LineReader>(
    alloc: Global,
    limit: usize,
    text: &[u8],
) -> Result<R::Whole, TextError>
    ensures { GivesText result (whole_of R.form limit text.now) }
{
    if text.len() > limit {
        let (within, _) = text.split_at(limit);
        return Err(refuse_long::<R>(alloc, within));
    }
    read_whole::<R>(alloc, text)
}

// What a text within its limit says.
fn read_whole<R: LineReader>(alloc: Global, text: &[u8]) -> Result<R::Whole, TextError>
    ensures { GivesText result (whole_read R.form text.now) }
{
    let (mut reader, number, rest) = read_ended::<R>(alloc, text)?;
    if rest.is_empty() {
        return close(reader, number);
    }
    take_line(alloc, &mut reader, number, rest)?;
    close(reader, number + 1)
}

// What was read before the line of this number, which is missing where that isn't whole.
fn close<R: LineReader>(reader: R, number: u64) -> Result<R::Whole, TextError>
    ensures { GivesText result (whole R.form number (Ok reader)) }
{
    match reader.finish() {
        Some(whole) => Ok(whole),
        None => Err(TextError::Line(Refusal {
            line: number,
            cause: Cause::End,
        })),
    }
}

// The refusal of a text above its limit, of which this is the part within.
fn refuse_long<R: LineReader>(alloc: Global, text: &[u8]) -> TextError
    ensures { TextFails result (part_read R.form text.now) }
{
    match read_ended::<R>(alloc, text) {
        Ok((_, line, _)) => TextError::Line(Refusal {
            line,
            cause: Cause::Limit,
        }),
        Err(error) => error,
    }
}

// What was read of the lines that end with LF, the number of the next line, and what stands there.
fn read_ended<R: LineReader>(alloc: Global, text: &[u8]) -> Result<(R, u64, &[u8]), TextError>
    ensures { Comes R.form result text.now }
{
    let mut reader = R::start(alloc);
    let mut number = 1;
    let mut rest = text;
    while let Some((line, after)) = split_at_byte(rest, b'\n') {
        take_line(alloc, &mut reader, number, strip_return(line))?;
        rest = after;
        number += 1;
    }
    Ok((reader, number, rest))
}

// Takes a line, or says which one is bad.
fn take_line<R: LineReader>(
    alloc: Global,
    reader: &mut R,
    number: u64,
    line: &[u8],
) -> Result<(), TextError>
    ensures { MovesText result reader.new
        (then_lines number (line_step R.form number reader.old (fields_of line.now)) Ok) }
{
    match take_fields(alloc, reader, number, line) {
        Ok(()) => Ok(()),
        Err(LineError::Memory) => Err(TextError::Memory),
        Err(LineError::Bad(cause)) => Err(TextError::Line(Refusal {
            line: number,
            cause,
        })),
    }
}

fn take_fields<R: LineReader>(
    alloc: Global,
    reader: &mut R,
    number: u64,
    line: &[u8],
) -> Result<(), LineError>
    ensures { Moves result reader.new (line_step R.form number reader.old (fields_of line.now)) }
{
    let fields = fields(alloc, line)?;
    match fields.as_slice() {
        [] => Ok(()),
        [[b'#', ..], ..] => Ok(()),
        [word, rest @ ..] => reader.take_words(alloc, number, word, rest),
    }
}

/// A refusal names the first bad line: each line before it is good.
pub fn refusals_name_the_first_bad_line<R: LineReader>()
    ensures { (limit : ℕ) → RefusesFirstBad R.form limit }
{}
