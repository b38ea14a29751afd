//! Strings of given lengths, hashed: what a replay of a schedule can't spare.
use cs_base::Memory;
use cs_hash::{TagKey, tagged};
use std::alloc::Global;

/// The most bytes of a string.
const LONGEST: u32 = 65_536;

/// What a string is hashed for.
#[derive(Clone, Copy)]
pub enum Kind {
    /// A tag under a key that was hashed ahead.
    Tag,
    /// A digest behind a letter.
    Digest,
}

/// So many strings of one length, each hashed in the same way.
#[derive(Clone, Copy)]
pub struct Row {
    pub kind: Kind,
    /// The bytes of each string.
    pub length: u32,
    /// How many strings.
    pub count: u32,
}

// So many zeros.
fn zeros(alloc: Global, length: u32) -> Result<Vec<u8>, Memory> {
    let mut zeros = Vec::new(alloc);
    for _ in 0..length.min(LONGEST) {
        zeros.push(0)?;
    }
    Ok(zeros)
}

// The first byte of the hash.
fn first_byte(key: &TagKey, kind: Kind, text: &[u8]) -> u8 {
    match kind {
        Kind::Tag => key.tag(text)[0],
        Kind::Digest => tagged(b'S', text)[0],
    }
}

/// Hashes the strings. Each begins with a byte of the hash before, so that none can be left out.
pub fn hash_row(alloc: Global, row: &Row) -> Result<u8, Memory> {
    let key = TagKey::new(&[1; 32]);
    let mut text = zeros(alloc, row.length)?;
    let mut byte = 0;
    for _ in 0..row.count {
        byte = first_byte(&key, row.kind, &text);
        if let Some(first) = text.as_mut_slice().first_mut() {
            *first = byte;
        }
    }
    Ok(byte)
}
