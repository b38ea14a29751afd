//! What a disk in memory has at one moment.
ghost use Rattle.std.specs.Prelude.{◌≡◌, ◌≤◌, ◌++◌, ◌∷◌, [], length, IfOk};
ghost use Rattle.cs_disk.specs.Disk.{over};

use cs_base::{Memory, Sequence};
use std::alloc::Global;

/// The content, what was there at the last sync, and each range that was written since, by place and
/// length, the oldest first.
#[derive(Drop)]
pub struct State {
    pub content: Sequence<u8>,
    pub synced: Sequence<u8>,
    pub unsynced: Sequence<(u64, u64)>,
}

/// What a crash makes of the ranges that aren't synced.
#[derive(Clone, Copy, Debug, PartialEq, Eq)]
pub enum Rest {
    /// They are as they were written.
    Written,
    /// Nothing of them was written.
    Unwritten,
    /// Each of their bytes is this one.
    Filled(u8),
}

impl State {
    ghost use Rattle.cs_disk.specs.Tears.{Leaves};

    /// All of the content is synced.
    pub fn new(alloc: Global, content: &[u8]) -> Result<State, Memory>
        ensures content { IfOk result (λ state. state.content ≡ content.now) }
        ensures synced { IfOk result (λ state. state.synced ≡ content.now) }
        ensures unsynced { IfOk result (λ state. state.unsynced ≡ []) }
    {
        Ok(State {
            content: copy(alloc, content)?,
            synced: copy(alloc, content)?,
            unsynced: Sequence::new(alloc),
        })
    }

    /// The same state once more.
    pub fn again(&self, alloc: Global) -> Result<State, Memory>
        ensures { IfOk result (λ state. state ≡ self.now) }
    {
        let unsynced = Vec::from_slice(alloc, self.unsynced.as_slice())?;
        Ok(State {
            content: copy(alloc, self.content.as_slice())?,
            synced: copy(alloc, self.synced.as_slice())?,
            unsynced: Sequence::from_vec(unsynced),
        })
    }

    /// The state after these bytes were written at this place.
    pub fn written(&self, alloc: Global, at: usize, bytes: &[u8]) -> Result<State, Memory>
        requires { at ≤ length self.now.content }
        ensures content { IfOk result (λ state.
            state.content ≡ over self.now.content at bytes.now) }
        ensures synced { IfOk result (λ state. state.synced ≡ self.now.synced) }
        ensures unsynced { IfOk result (λ state.
            state.unsynced ≡ self.now.unsynced ++ (at, length bytes.now) ∷ []) }
    {
        let mut next = self.again(alloc)?;
        next.unsynced.push((at as u64, bytes.len() as u64))?;
        let content = write_over(alloc, self.content.as_slice(), at, bytes)?;
        next.content = Sequence::from_vec(content);
        Ok(next)
    }

    /// What a crash leaves.
    pub fn left(&self, alloc: Global, rest: Rest) -> Result<Vec<u8>, Memory>
        ensures { IfOk result (λ file. Leaves self.now file.items) }
    {
        match rest {
            Rest::Written => Ok(Vec::from_slice(alloc, self.content.as_slice())?),
            Rest::Unwritten => Ok(Vec::from_slice(alloc, self.synced.as_slice())?),
            Rest::Filled(byte) => {
                filled(
                    alloc,
                    self.synced.as_slice(),
                    self.unsynced.as_slice(),
                    byte,
                )
            }
        }
    }
}

fn copy(alloc: Global, bytes: &[u8]) -> Result<Sequence<u8>, Memory>
    ensures { IfOk result (λ copied. copied ≡ bytes.now) }
{
    Ok(Sequence::from_vec(Vec::from_slice(alloc, bytes)?))
}

// The file with these bytes at this place.
fn write_over(alloc: Global, file: &[u8], at: usize, bytes: &[u8]) -> Result<Vec<u8>, Memory>
    requires { at ≤ length file.now }
    ensures { IfOk result (λ new. new.items ≡ over file.now at bytes.now) }
{
    let mut new = Vec::from_slice(alloc, &file[..at])?;
    new.extend_from_slice(bytes)?;
    if bytes.len() < file.len() - at {
        new.extend_from_slice(&file[at + bytes.len()..])?;
    }
    Ok(new)
}

ghost use Rattle.cs_disk.specs.Tears.{Tears};

// What was synced, with this byte in each place of the ranges.
fn filled(alloc: Global, synced: &[u8], ranges: &[(u64, u64)], byte: u8) -> Result<Vec<u8>, Memory>
    ensures { IfOk result (λ file. Tears synced.now ranges.now file.items) }
{
    let mut file = Vec::from_slice(alloc, synced)?;
    for range in ranges {
        file = fill(alloc, file, *range, byte)?;
    }
    Ok(file)
}

ghost use Rattle.cs_disk.specs.Disk.{Torn};

// The file with this byte in each place of the range, unless that begins behind the file's end.
fn fill(alloc: Global, file: Vec<u8>, range: (u64, u64), byte: u8) -> Result<Vec<u8>, Memory>
    ensures { IfOk result (λ new. Torn range.0 range.1 file.items new.items) }
{
    let (at, count) = range;
    if at as usize > file.len() {
        return Ok(file);
    }
    let bytes = vec![in alloc; byte; count as usize]?;
    write_over(alloc, file.as_slice(), at as usize, bytes.as_slice())
}
