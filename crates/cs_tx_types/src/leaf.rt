//! Leaves of a shard's log.
ghost use Rattle.std.specs.Prelude.{◌≡◌, ◌++◌, ◌↔◌, IsTrue, OnOk, OnErr};
ghost use Rattle.cs_tx_value.specs.Reading.{ReadsValue, Passes, Begins, LeavesRoom};
ghost use Rattle.cs_tx_types.specs.Log.{place_at, place_encoding, PlaceFits};

use crate::action::Action;
use crate::effect::Effect;
use crate::sized::{read_sized, room_sized, skip_sized, write_sized};
use crate::versioned::Versioned;
use cs_base::{Cursor, Memory, Version, Writer};
use cs_tx_value::{Encoded, FormError};
use std::alloc::Global;

/// An action that was executed in a slot of a shard's log, its place among those of the slot, and
/// what its execution came to. One that fits in version 1 has place 0, which isn't written.
#[derive(Drop)]
pub struct Leaf {
    pub slot: u64,
    pub place: u8,
    pub action: Action,
    pub result: Effect,
}

/// The place of an action in its slot.
pub(crate) fn read_place(cursor: &mut Cursor<'_>, version: Version) -> Result<u8, FormError>
    ensures { ReadsValue result cursor.new (place_at version cursor.old) }
{
    match version {
        Version::One => Ok(0),
        Version::Two => Ok(cursor.u8()?),
    }
}

/// Passes over it.
pub(crate) fn skip_place(cursor: &mut Cursor<'_>, version: Version) -> Result<(), FormError>
    ensures { Passes result cursor.new (place_at version cursor.old) }
{
    match version {
        Version::One => Ok(()),
        Version::Two => {
            cursor.u8()?;
            Ok(())
        }
    }
}

/// Appends it.
pub fn write_place(place: u8, out: &mut Writer, version: Version) -> Result<(), Memory>
    ensures ok { OnOk result (out.new ≡ out.old ++ place_encoding version place) }
    ensures err { OnErr result (Begins out.new out.old) }
{
    match version {
        Version::One => Ok(()),
        Version::Two => out.u8(place),
    }
}

/// What is left of so much room behind it.
pub fn room_place(place: u8, room: usize, version: Version) -> Option<usize>
    ensures { LeavesRoom (place_encoding version place) room result }
{
    match version {
        Version::One => Some(room),
        Version::Two => place.room(room),
    }
}

fn place_fits(place: u8, version: Version) -> bool
    ensures { IsTrue result ↔ PlaceFits version place }
{
    match version {
        Version::One => place == 0,
        Version::Two => place.fits(),
    }
}

impl Versioned for Leaf {
    ghost use Rattle.cs_tx_types.specs.Log.{leaf_encoding, LeafFits, leaf_at};
    ghost use Rattle.cs_tx_types.specs.laws.Log.{leaf_form};
    ghost use Rattle.cs_tx_value.specs.laws.Limits.{unlimited};

    ghost encoding = { leaf_encoding };

    ghost Fits = { LeafFits };

    ghost found_at = { leaf_at };

    ghost most = { λ version. 18446744073709551615 };

    fn longest(_version: Version) -> usize {
        usize::MAX
    }

    #[tactic(auto, unfolding(crate::specs::Log::leaf_at, cs_base::specs::Fields::pair_at))]
    fn read(alloc: Global, cursor: &mut Cursor<'_>, version: Version) -> Result<Leaf, FormError> {
        let slot = cursor.u64()?;
        let place = read_place(cursor, version)?;
        let action = read_sized(alloc, cursor)?;
        let result = Effect::read(alloc, cursor)?;
        Ok(Leaf {
            slot,
            place,
            action,
            result,
        })
    }

    #[tactic(auto, unfolding(crate::specs::Log::leaf_at, cs_base::specs::Fields::pair_at))]
    fn skip(cursor: &mut Cursor<'_>, version: Version) -> Result<(), FormError> {
        cursor.u64()?;
        skip_place(cursor, version)?;
        skip_sized::<Action>(cursor)?;
        Effect::skip(cursor)
    }

    #[tactic(auto, using(crate::specs::laws::Log::action_small))]
    fn write(&self, out: &mut Writer, version: Version) -> Result<(), Memory> {
        self.slot.encode(out)?;
        write_place(self.place, out, version)?;
        write_sized(&self.action, out)?;
        self.result.encode(out)
    }

    fn is_within(&self, version: Version) -> bool {
        self.slot.fits() && place_fits(self.place, version) && self.action.fits()
    }

    fn room(&self, room: usize, version: Version) -> Option<usize> {
        let room = self.slot.room(room)?;
        let room = room_place(self.place, room, version)?;
        let room = room_sized(&self.action, room)?;
        self.result.room(room)
    }

    fn copy(&self, alloc: Global) -> Result<Leaf, Memory> {
        Ok(Leaf {
            slot: self.slot,
            place: self.place,
            action: self.action.copy(alloc)?,
            result: self.result,
        })
    }

    ghost form = { leaf_form };

    ghost short = { λ version value fits lt. unlimited _ lt };
}
