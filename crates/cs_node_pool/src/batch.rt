//! Entries in the making.
ghost use Rattle.std.specs.Prelude.{◌≡◌, IfOk, if◌then◌else◌};
ghost use Rattle.cs_node_state.specs.Admission.{has_room_for, some_entry};
ghost use Rattle.cs_node_pool.specs.Batches.{unfilled, with_action};

use cs_base::{MOST_ACTIONS, MOST_BATCH, MOST_ENTRY, Memory, Sequence, Version};
use cs_tx::{Action, Encoded, Entry};
use std::alloc::Global;

/// The bytes of a batch without those of its actions: its kind and their number.
const BATCH_HEAD: usize = 2;

/// An entry in the making: its actions, how many more it may have, and the bytes that are left for
/// these.
#[derive(Drop)]
pub struct Batch {
    pub actions: Sequence<Action>,
    pub left: u8,
    pub room: usize,
}

impl Batch {
    /// Nothing yet: room for one action in version 1, for as many as a batch has in version 2.
    pub fn new(alloc: Global, version: Version) -> Self
        ensures { result ≡ unfilled version }
    {
        let actions = Sequence::new(alloc);
        match version {
            Version::One => Batch {
                actions,
                left: 1,
                room: MOST_ENTRY,
            },
            Version::Two => Batch {
                actions,
                left: MOST_ACTIONS,
                room: MOST_BATCH - BATCH_HEAD,
            },
        }
    }

    /// Takes an action at the end, where there is room for it, and answers whether there was. Its
    /// bytes are counted, and not written.
    pub fn take(&mut self, action: Action) -> Result<bool, Memory>
        ensures answer { IfOk result (λ took. took ≡ has_room_for self.old.left self.old.room action) }
        ensures batch { IfOk result (λ took.
            self.new ≡ (if took then with_action action self.old else self.old)) }
    {
        if self.left == 0 {
            return Ok(false);
        }
        let Some(room) = action.room(self.room) else {
            return Ok(false);
        };
        self.actions.push(action)?;
        self.left -= 1;
        self.room = room;
        Ok(true)
    }

    /// The entry of its actions, if there are any.
    pub fn entry(self) -> Option<Entry>
        ensures { result ≡ some_entry self.actions }
    {
        let Batch {
            actions,
            left: _,
            room: _,
        } = self;
        if actions.is_empty() {
            return None;
        }
        Some(Entry { actions })
    }
}
