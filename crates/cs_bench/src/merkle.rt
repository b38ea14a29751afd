//! Roots over leaves of 100 bytes.
use cs_base::Memory;
use cs_merkle::{Digest, root};
use std::alloc::Global;

// The number, and zeros up to 100 bytes.
fn leaf(alloc: Global, number: u32) -> Result<Vec<u8>, Memory> {
    let mut leaf = Vec::new(alloc);
    leaf.extend_from_slice(&number.to_be_bytes())?;
    leaf.extend_from_slice(&[0; 96])?;
    Ok(leaf)
}

/// Makes so many leaves, and computes their root in each of so many rounds: these roots.
pub fn run(alloc: Global, count: u32, rounds: u32) -> Result<Vec<Digest>, Memory> {
    let mut leaves = Vec::new(alloc);
    for number in 0..count {
        leaves.push(leaf(alloc, number)?)?;
    }
    let mut roots = Vec::new(alloc);
    for _ in 0..rounds {
        roots.push(root(leaves.as_slice()))?;
    }
    Ok(roots)
}
