//! Contract texts with a check that does one thing over and over.
use cs_base::Memory;
use std::alloc::Global;

/// What a check does over and over.
#[derive(Clone, Copy)]
pub enum Part {
    /// It compares bytes, of which there are none: what takes the least time for its units.
    Compare,
    /// It puts a list of 8,000 bytes, of 1,984 texts of one byte, into a list, which copies it: what
    /// takes the most time for its units.
    Copy,
}

/// 20 units.
const COMPARE: &[u8] = b"let b = x\"\" == x\"\"; ";

/// 21 units.
const COPY: &[u8] =
    b"let b = [a]; let c = [a]; let d = [a]; let f = [a]; let g = [a]; let h = [a]; let k = [a]; ";

fn body_of(part: Part) -> &'static [u8] {
    match part {
        Part::Compare => COMPARE,
        Part::Copy => COPY,
    }
}

// A list of so many items, one of two at least.
fn put_list(text: &mut Vec<u8>, item: &[u8], count: u8) -> Result<(), Memory> {
    text.extend_from_slice(b"[")?;
    text.extend_from_slice(item)?;
    for _ in 1..count {
        text.extend_from_slice(b", ")?;
        text.extend_from_slice(item)?;
    }
    text.extend_from_slice(b"]; ")?;
    Ok(())
}

/// A text whose check has so many times 100 turns of a loop.
pub fn text_of(alloc: Global, part: Part, turns: u32) -> Result<Vec<u8>, Memory> {
    let mut text = Vec::from_slice(alloc, b"method m { procedure { } check { let e = ")?;
    put_list(&mut text, b"x\"00\"", 64)?;
    text.extend_from_slice(b"let a = ")?;
    put_list(&mut text, b"e", 31)?;
    text.extend_from_slice(b"for i to ")?;
    text.extend_from_slice(format!(in alloc; "{turns}")?.as_bytes())?;
    text.extend_from_slice(b" { for j to 100 { ")?;
    text.extend_from_slice(body_of(part))?;
    text.extend_from_slice(b"} } answer true; } }")?;
    Ok(text)
}
