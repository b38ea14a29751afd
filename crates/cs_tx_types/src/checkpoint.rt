//! Checkpoints.
ghost use Rattle.std.specs.Prelude.{◌≡◌, ◌++◌, ◌↔◌, IsTrue, OnOk, OnErr};
ghost use Rattle.cs_tx_value.specs.Reading.{ReadsValue, Passes, Begins, LeavesRoom};
ghost use Rattle.cs_tx_types.specs.Log.{leaves_at, leaves_encoding, LeavesFit};

use crate::limits::COVERED;
use crate::versioned::Versioned;
use cs_base::{Cursor, Memory, Version, Writer};
use cs_tx_value::{Digest, Encoded, FormError};
use std::alloc::Global;

/// What a shard's log and records come to after every 16 slots: the number of the checkpoint, the
/// head of the one before, the root over the leaves of the 16 slots, the root over all records, and
/// the number of the leaves. One that fits in version 1 has 16, which isn't written.
#[derive(Clone, Copy, Debug, PartialEq, Eq)]
pub struct Checkpoint {
    pub shard: u16,
    pub number: u64,
    pub previous: Digest,
    pub leaf_root: Digest,
    pub table_root: Digest,
    pub leaves: u16,
}

// The number of leaves.
fn read_leaves(cursor: &mut Cursor<'_>, version: Version) -> Result<u16, FormError>
    ensures { ReadsValue result cursor.new (leaves_at version cursor.old) }
{
    match version {
        Version::One => Ok(COVERED as u16),
        Version::Two => Ok(cursor.u16()?),
    }
}

fn skip_leaves(cursor: &mut Cursor<'_>, version: Version) -> Result<(), FormError>
    ensures { Passes result cursor.new (leaves_at version cursor.old) }
{
    match version {
        Version::One => Ok(()),
        Version::Two => {
            cursor.u16()?;
            Ok(())
        }
    }
}

fn write_leaves(leaves: u16, out: &mut Writer, version: Version) -> Result<(), Memory>
    ensures ok { OnOk result (out.new ≡ out.old ++ leaves_encoding version leaves) }
    ensures err { OnErr result (Begins out.new out.old) }
{
    match version {
        Version::One => Ok(()),
        Version::Two => out.u16(leaves),
    }
}

fn room_leaves(leaves: u16, room: usize, version: Version) -> Option<usize>
    ensures { LeavesRoom (leaves_encoding version leaves) room result }
{
    match version {
        Version::One => Some(room),
        Version::Two => leaves.room(room),
    }
}

fn leaves_fit(leaves: u16, version: Version) -> bool
    ensures { IsTrue result ↔ LeavesFit version leaves }
{
    match version {
        Version::One => u64::from(leaves) == COVERED,
        Version::Two => leaves.fits(),
    }
}

impl Versioned for Checkpoint {
    ghost use Rattle.cs_tx_value.specs.laws.Limits.{unlimited};
    ghost use Rattle.cs_tx_types.specs.Log.{checkpoint_encoding, CheckpointFits, checkpoint_at};
    ghost use Rattle.cs_tx_types.specs.laws.Log.{checkpoint_form};

    ghost encoding = { checkpoint_encoding };

    ghost Fits = { CheckpointFits };

    ghost found_at = { checkpoint_at };

    ghost most = { λ version. 18446744073709551615 };

    fn longest(_version: Version) -> usize {
        usize::MAX
    }

    #[tactic(auto, unfolding(crate::specs::Log::checkpoint_at, cs_base::specs::Fields::pair_at))]
    fn read(
        alloc: Global,
        cursor: &mut Cursor<'_>,
        version: Version,
    ) -> Result<Checkpoint, FormError> {
        let shard = cursor.u16()?;
        let number = cursor.u64()?;
        let previous = Digest::read(alloc, cursor)?;
        let leaf_root = Digest::read(alloc, cursor)?;
        let table_root = Digest::read(alloc, cursor)?;
        let leaves = read_leaves(cursor, version)?;
        Ok(Checkpoint {
            shard,
            number,
            previous,
            leaf_root,
            table_root,
            leaves,
        })
    }

    #[tactic(auto, unfolding(crate::specs::Log::checkpoint_at, cs_base::specs::Fields::pair_at))]
    fn skip(cursor: &mut Cursor<'_>, version: Version) -> Result<(), FormError> {
        cursor.u16()?;
        cursor.u64()?;
        Digest::skip(cursor)?;
        Digest::skip(cursor)?;
        Digest::skip(cursor)?;
        skip_leaves(cursor, version)
    }

    fn write(&self, out: &mut Writer, version: Version) -> Result<(), Memory> {
        out.u16(self.shard)?;
        out.u64(self.number)?;
        self.previous.encode(out)?;
        self.leaf_root.encode(out)?;
        self.table_root.encode(out)?;
        write_leaves(self.leaves, out, version)
    }

    fn is_within(&self, version: Version) -> bool {
        if !self.shard.fits() || !self.number.fits() || !self.previous.fits() {
            return false;
        }
        self.leaf_root.fits() && self.table_root.fits() && leaves_fit(self.leaves, version)
    }

    fn room(&self, room: usize, version: Version) -> Option<usize> {
        let room = self.shard.room(room)?;
        let room = self.number.room(room)?;
        let room = self.previous.room(room)?;
        let room = self.leaf_root.room(room)?;
        let room = self.table_root.room(room)?;
        room_leaves(self.leaves, room, version)
    }

    fn copy(&self, _alloc: Global) -> Result<Checkpoint, Memory> {
        Ok(*self)
    }

    ghost form = { checkpoint_form };

    ghost short = { λ version value fits lt. unlimited _ lt };
}
