//! Proofs that an action stands in a shard's log.
ghost use Rattle.std.specs.Prelude.{◌≡◌, ◌++◌, ◌<◌, ◌≤◌, ◌^◌, length, OnOk, OnErr};
ghost use Rattle.cs_base.specs.Fields.{Reads};
ghost use Rattle.cs_tx_value.specs.Reading.{ReadsValue, Passes, Begins, LeavesRoom};
ghost use Rattle.cs_tx_types.specs.Log.{index_number_at, index_at, index_encoding, last_place, low_leaf_at, covered_at, leaf_encoding, LeafFits, most_path};
ghost use Rattle.cs_tx_types.specs.Sized.{sized};

use crate::action::Action;
use crate::checkpoint::Checkpoint;
use crate::effect::Effect;
use crate::leaf::{Leaf, read_place, skip_place};
use crate::limits::{LAST_BATCH_PLACE, LAST_PLACE, MOST_BATCH_PATH, MOST_PATH};
use crate::sized::{LONGEST, read_sized, skip_sized};
use crate::slot::{read_slot, skip_slot};
use crate::versioned::Versioned;
use cs_base::{Cursor, LAST_SLOT, Memory, Sequence, Short, Version, Writer};
use cs_tx_value::{
    Digest, Encoded, FormError, copy_each, few_fit, read_counted, room_counted, skip_counted,
    write_counted,
};
use std::alloc::Global;

/// A leaf with the checkpoint that covers it, its place among the leaves there, and the hashes that
/// lead from it to the root over them. One that fits in version 1 has a place of at most 15 and at
/// most 4 hashes, in version 2 of at most 511 and at most 9; its leaf's slot is below 2^62.
#[derive(Drop)]
pub struct Proof {
    pub checkpoint: Checkpoint,
    pub place: u16,
    pub leaf: Leaf,
    pub path: Sequence<Digest>,
}

fn last_index(version: Version) -> u16
    ensures { result ≡ last_place version }
{
    match version {
        Version::One => u16::from(LAST_PLACE),
        Version::Two => LAST_BATCH_PLACE,
    }
}

fn longest_path(version: Version) -> u8
    ensures { result ≡ most_path version }
{
    match version {
        Version::One => MOST_PATH,
        Version::Two => MOST_BATCH_PATH,
    }
}

fn read_index_number(cursor: &mut Cursor<'_>, version: Version) -> Result<u16, Short>
    ensures { Reads result cursor.old cursor.new (index_number_at version cursor.old) }
{
    match version {
        Version::One => Ok(u16::from(cursor.u8()?)),
        Version::Two => cursor.u16(),
    }
}

#[tactic(auto, unfolding(cs_base::specs::Fields::tested_at))]
fn read_index(cursor: &mut Cursor<'_>, version: Version) -> Result<u16, FormError>
    ensures { ReadsValue result cursor.new (index_at version cursor.old) }
{
    let index = read_index_number(cursor, version)?;
    if index > last_index(version) {
        return Err(FormError::BadForm);
    }
    Ok(index)
}

#[tactic(auto, unfolding(cs_base::specs::Fields::tested_at))]
fn skip_index(cursor: &mut Cursor<'_>, version: Version) -> Result<(), FormError>
    ensures { Passes result cursor.new (index_at version cursor.old) }
{
    if read_index_number(cursor, version)? > last_index(version) {
        return Err(FormError::BadForm);
    }
    Ok(())
}

fn write_index(index: u16, out: &mut Writer, version: Version) -> Result<(), Memory>
    requires { index ≤ last_place version }
    ensures ok { OnOk result (out.new ≡ out.old ++ index_encoding version index) }
    ensures err { OnErr result (Begins out.new out.old) }
{
    match version {
        Version::One => out.u8(index as u8),
        Version::Two => out.u16(index),
    }
}

fn room_index(index: u16, room: usize, version: Version) -> Option<usize>
    ensures { LeavesRoom (index_encoding version index) room result }
{
    match version {
        Version::One => room.checked_sub(1),
        Version::Two => index.room(room),
    }
}

// A leaf behind its length, whose slot is below 2^62.
#[tactic(auto, unfolding(crate::specs::Log::low_leaf_at, crate::specs::Sized::sized_at, cs_base::specs::Fields::pair_at))]
fn read_covered(alloc: Global, cursor: &mut Cursor<'_>, version: Version) -> Result<Leaf, FormError>
    ensures { ReadsValue result cursor.new (covered_at version cursor.old) }
{
    let size = cursor.u32()?;
    let before = cursor.len();
    let slot = read_slot(cursor)?;
    let place = read_place(cursor, version)?;
    let action = read_sized(alloc, cursor)?;
    let result = Effect::read(alloc, cursor)?;
    if before.saturating_sub(cursor.len()) != size as usize {
        return Err(FormError::BadForm);
    }
    Ok(Leaf {
        slot,
        place,
        action,
        result,
    })
}

#[tactic(auto, using(cs_base::proofs::Many::behind_map, cs_base::proofs::Many::behind_pair), unfolding(crate::specs::Log::low_leaf_at))]
fn skip_low(cursor: &mut Cursor<'_>, version: Version) -> Result<(), FormError>
    ensures { Passes result cursor.new (low_leaf_at version cursor.old) }
{
    skip_slot(cursor)?;
    skip_place(cursor, version)?;
    skip_sized::<Action>(cursor)?;
    Effect::skip(cursor)
}

#[tactic(auto, unfolding(crate::specs::Sized::sized_at))]
fn skip_covered(cursor: &mut Cursor<'_>, version: Version) -> Result<(), FormError>
    ensures { Passes result cursor.new (covered_at version cursor.old) }
{
    let size = cursor.u32()?;
    let before = cursor.len();
    skip_low(cursor, version)?;
    if before.saturating_sub(cursor.len()) != size as usize {
        return Err(FormError::BadForm);
    }
    Ok(())
}

fn covered_size(leaf: &Leaf, version: Version) -> u32
    requires { length (leaf_encoding version leaf.now) < 2 ^ 32 }
    ensures { result ≡ length (leaf_encoding version leaf.now) }
{
    let left = leaf.room(LONGEST, version).unwrap_or(0);
    (LONGEST - left) as u32
}

// Appends the length of a leaf and the leaf.
#[tactic(auto, using(crate::specs::laws::Log::leaf_small))]
fn write_covered(leaf: &Leaf, out: &mut Writer, version: Version) -> Result<(), Memory>
    requires { LeafFits version leaf.now }
    ensures ok { OnOk result (out.new ≡ out.old ++ sized (leaf_encoding version) leaf.now) }
    ensures err { OnErr result (Begins out.new out.old) }
{
    out.u32(covered_size(leaf, version))?;
    leaf.write(out, version)
}

#[tactic(auto, unfolding(crate::specs::Sized::sized))]
fn room_covered(leaf: &Leaf, room: usize, version: Version) -> Option<usize>
    ensures { LeavesRoom (sized (leaf_encoding version) leaf.now) room result }
{
    let room = room.checked_sub(4)?;
    leaf.room(room, version)
}

impl Versioned for Proof {
    ghost use Rattle.cs_tx_value.specs.laws.Limits.{unlimited};
    ghost use Rattle.cs_tx_types.specs.Log.{proof_encoding, ProofFits, proof_at};
    ghost use Rattle.cs_tx_types.specs.laws.Log.{proof_form};

    ghost encoding = { proof_encoding };

    ghost Fits = { ProofFits };

    ghost found_at = { proof_at };

    ghost most = { λ version. 18446744073709551615 };

    fn longest(_version: Version) -> usize {
        usize::MAX
    }

    #[tactic(auto, unfolding(crate::specs::Log::proof_at, cs_base::specs::Fields::pair_at))]
    fn read(alloc: Global, cursor: &mut Cursor<'_>, version: Version) -> Result<Proof, FormError> {
        let checkpoint = Checkpoint::read(alloc, cursor, version)?;
        let place = read_index(cursor, version)?;
        let leaf = read_covered(alloc, cursor, version)?;
        let path = read_counted(alloc, cursor, longest_path(version))?;
        Ok(Proof {
            checkpoint,
            place,
            leaf,
            path,
        })
    }

    #[tactic(auto, unfolding(crate::specs::Log::proof_at, cs_base::specs::Fields::pair_at))]
    fn skip(cursor: &mut Cursor<'_>, version: Version) -> Result<(), FormError> {
        Checkpoint::skip(cursor, version)?;
        skip_index(cursor, version)?;
        skip_covered(cursor, version)?;
        skip_counted::<Digest>(cursor, longest_path(version))
    }

    fn write(&self, out: &mut Writer, version: Version) -> Result<(), Memory> {
        self.checkpoint.write(out, version)?;
        write_index(self.place, out, version)?;
        write_covered(&self.leaf, out, version)?;
        write_counted(&self.path, out)
    }

    fn is_within(&self, version: Version) -> bool {
        if !self.checkpoint.is_within(version) || self.place > last_index(version) {
            return false;
        }
        if !self.leaf.is_within(version) || self.leaf.slot > LAST_SLOT {
            return false;
        }
        few_fit(&self.path, longest_path(version))
    }

    fn room(&self, room: usize, version: Version) -> Option<usize> {
        let room = self.checkpoint.room(room, version)?;
        let room = room_index(self.place, room, version)?;
        let room = room_covered(&self.leaf, room, version)?;
        room_counted(&self.path, room)
    }

    fn copy(&self, alloc: Global) -> Result<Proof, Memory> {
        Ok(Proof {
            checkpoint: self.checkpoint,
            place: self.place,
            leaf: self.leaf.copy(alloc)?,
            path: copy_each(alloc, &self.path)?,
        })
    }

    ghost form = { proof_form };

    ghost short = { λ version value fits lt. unlimited _ lt };
}
