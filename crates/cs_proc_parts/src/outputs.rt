//! The slots that a procedure fills.
ghost use Rattle.std.specs.Prelude.{◌≡◌, ◌++◌, map, IfOk, OnOk};
ghost use Rattle.std.specs.List.{list_all};
ghost use Rattle.std.specs.Option.{option_map};
ghost use Rattle.cs_base.specs.Lists.{is_empty};
ghost use Rattle.cs_proc_parts.specs.Creating.{place_created, find_created, room_for, with_made, is_filled, all_made, empty_slot, empty_slots};

use cs_base::{Memory, Sequence};
use cs_lang::Slot;
use cs_tx_value::Object;
use std::alloc::Global;
use std::marker::Model;

#[derive(Drop)]
struct Entry<'a> {
    name: &'a [u8],
    many: bool,
    objects: Vec<Object>,
}

fn is_empty(objects: &[Object]) -> bool
    ensures { result ≡ is_empty objects.now }
{
    match objects {
        [] => true,
        [_, ..] => false,
    }
}

/// The slots that a procedure fills, in the order in which its method names them, with what was
/// made for each.
#[derive(Drop)]
pub struct Outputs<'a> {
    entries: Vec<Entry<'a>>,
}

impl<'a> Model for Outputs<'a> {
    ghost use Rattle.std.specs.Prelude.{List, map};
    ghost use Rattle.cs_proc_parts.specs.Creating.{Created};
    ghost use Rattle.cs_proc_parts.specs.Coding.{slots_code};

    ghost Value = { List Created };

    ghost coded = { slots_code };

    ghost use Rattle.cs_proc_parts.specs.Slots.{created_of};

    ghost view = { λ s. map created_of s.entries.items };
}

impl<'a> Outputs<'a> {
    ghost use Rattle.cs_proc_parts.specs.Slots.{created_of};

    /// Slots for which nothing is made yet.
    pub fn new(alloc: Global, slots: &'a [Slot]) -> Result<Outputs<'a>, Memory>
        ensures { IfOk result (λ outputs. outputs ≡ empty_slots slots.now) }
    {
        let mut entries = Vec::with_capacity(alloc, slots.len())?;
        for slot in slots {
            entries.push(Entry {
                name: slot.name.bytes.as_slice(),
                many: slot.many,
                objects: Vec::new(alloc),
            })?;
        }
        Ok(Outputs { entries })
    }

    /// The place of the first slot of this name, or the number of slots.
    fn place(&self, name: &[u8]) -> usize
        ensures { result ≡ place_created name.now self.now }
    {
        for (i, entry) in self.entries.as_slice().iter().enumerate() {
            if entry.name == name {
                return i;
            }
        }
        self.entries.len()
    }

    /// The first slot of this name.
    #[tactic(auto, using(crate::proofs::Filling::get_read))]
    fn named(&self, name: &[u8]) -> Option<&Entry<'a>>
        ensures { option_map (λ e. created_of e.now) result ≡ find_created name.now self.now }
    {
        let place = self.place(name);
        if place < self.entries.len() {
            return Some(&self.entries[place]);
        }
        None
    }

    /// Whether the slot of this name takes one more object, if there is such a slot.
    pub fn room_for(&self, name: &[u8]) -> Option<bool>
        ensures { result ≡ room_for name.now self.now }
    {
        match self.named(name) {
            Some(entry) => Some(entry.many || is_empty(entry.objects.as_slice())),
            None => None,
        }
    }

    /// One object more for the slot of this name.
    pub fn put(&mut self, name: &[u8], object: Object) -> Result<(), Memory>
        ensures { OnOk result (self.new ≡ with_made name.now object self.old) }
    {
        let place = self.place(name);
        if place < self.entries.len() {
            self.entries[place].objects.push(object)?;
        }
        Ok(())
    }

    /// Whether each slot for one object is filled.
    pub fn are_filled(&self) -> bool
        ensures { result ≡ list_all is_filled self.now }
    {
        for entry in self.entries.as_slice() {
            if !entry.many && is_empty(entry.objects.as_slice()) {
                return false;
            }
        }
        true
    }

    /// All that was made, in the order of the slots.
    pub fn into_objects(self, alloc: Global) -> Result<Sequence<Object>, Memory>
        ensures { IfOk result (λ objects. objects ≡ all_made self.entry) }
    {
        let mut all = Vec::new(alloc);
        for entry in self.entries {
            let mut objects = entry.objects;
            all.append(&mut objects)?;
        }
        Ok(Sequence::from_vec(all))
    }
}
