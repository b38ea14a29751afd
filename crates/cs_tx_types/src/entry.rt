//! Entries of a shard's order.
ghost use Rattle.std.specs.Prelude.{◌≡◌};
ghost use Rattle.cs_tx_value.specs.Reading.{ReadsValue, Passes};
ghost use Rattle.cs_tx_types.specs.Entry.{alone_at, batch_at};

use crate::action::Action;
use crate::versioned::Versioned;
use cs_base::{Cursor, MOST_ACTIONS, MOST_BATCH, MOST_ENTRY, Memory, Sequence, Version, Writer};
use cs_tx_value::{
    Encoded, FormError, copy_each, each_fits, few_fit, read_some, room_counted, skip_some,
    write_counted,
};
use std::alloc::Global;

/// The number in front of a batch, behind those of the two kinds of actions.
const BATCH: u8 = 2;

/// What the nodes of a shard order: actions, which are executed one after the other. One that fits
/// in version 1 has one action; in version 2 it is a batch of 1 to 32, of at most 16,384 bytes.
#[derive(Drop)]
pub struct Entry {
    pub actions: Sequence<Action>,
}

// An entry of one action.
fn read_alone(alloc: Global, cursor: &mut Cursor<'_>) -> Result<Entry, FormError>
    ensures { ReadsValue result cursor.new (alone_at cursor.old) }
{
    let action = Action::read(alloc, cursor)?;
    let mut actions = Sequence::new(alloc);
    actions.push(action)?;
    Ok(Entry { actions })
}

// A batch behind its number.
#[tactic(auto, unfolding(crate::specs::Entry::batch_at, cs_tx_value::specs::Kinds::kinds_at, cs_base::specs::Fields::within_at))]
fn read_batch(alloc: Global, cursor: &mut Cursor<'_>) -> Result<Entry, FormError>
    ensures { ReadsValue result cursor.new (batch_at cursor.old) }
{
    let before = cursor.len();
    if cursor.u8()? != BATCH {
        return Err(FormError::BadForm);
    }
    let actions = read_some(alloc, cursor, MOST_ACTIONS)?;
    if before.saturating_sub(cursor.len()) > MOST_BATCH {
        return Err(FormError::BadForm);
    }
    Ok(Entry { actions })
}

#[tactic(auto, unfolding(crate::specs::Entry::batch_at, cs_tx_value::specs::Kinds::kinds_at, cs_base::specs::Fields::within_at))]
fn skip_batch(cursor: &mut Cursor<'_>) -> Result<(), FormError>
    ensures { Passes result cursor.new (batch_at cursor.old) }
{
    let before = cursor.len();
    if cursor.u8()? != BATCH {
        return Err(FormError::BadForm);
    }
    skip_some::<Action>(cursor, MOST_ACTIONS)?;
    if before.saturating_sub(cursor.len()) > MOST_BATCH {
        return Err(FormError::BadForm);
    }
    Ok(())
}

impl Versioned for Entry {
    ghost use Rattle.cs_tx_types.specs.Entry.{entry_encoding, EntryFits, entry_at, entry_limit};
    ghost use Rattle.cs_tx_types.specs.laws.Entry.{entry_form, entry_short};

    ghost encoding = { entry_encoding };

    ghost Fits = { EntryFits };

    ghost found_at = { entry_at };

    ghost most = { entry_limit };

    fn longest(version: Version) -> usize {
        match version {
            Version::One => MOST_ENTRY,
            Version::Two => MOST_BATCH,
        }
    }

    fn read(alloc: Global, cursor: &mut Cursor<'_>, version: Version) -> Result<Entry, FormError> {
        match version {
            Version::One => read_alone(alloc, cursor),
            Version::Two => read_batch(alloc, cursor),
        }
    }

    fn skip(cursor: &mut Cursor<'_>, version: Version) -> Result<(), FormError> {
        match version {
            Version::One => Action::skip(cursor),
            Version::Two => skip_batch(cursor),
        }
    }

    fn write(&self, out: &mut Writer, version: Version) -> Result<(), Memory> {
        match version {
            Version::One => {
                let Some(action) = self.actions.as_slice().first() else {
                    return Ok(());
                };
                action.encode(out)
            }
            Version::Two => {
                out.u8(BATCH)?;
                write_counted(&self.actions, out)
            }
        }
    }

    fn is_within(&self, version: Version) -> bool {
        match version {
            Version::One => self.actions.len() == 1 && each_fits(self.actions.as_slice()),
            Version::Two => {
                if self.actions.is_empty() || !few_fit(&self.actions, MOST_ACTIONS) {
                    return false;
                }
                self.room(MOST_BATCH, version).is_some()
            }
        }
    }

    fn room(&self, room: usize, version: Version) -> Option<usize> {
        match version {
            Version::One => match self.actions.as_slice().first() {
                None => Some(room),
                Some(action) => action.room(room),
            },
            Version::Two => {
                let room = room.checked_sub(1)?;
                room_counted(&self.actions, room)
            }
        }
    }

    fn copy(&self, alloc: Global) -> Result<Entry, Memory> {
        Ok(Entry {
            actions: copy_each(alloc, &self.actions)?,
        })
    }

    ghost form = { entry_form };

    ghost short = { λ version entry fits lt. entry_short version entry fits };
}
