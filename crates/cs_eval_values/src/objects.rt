//! Objects, wherever they stand.
ghost use Rattle.std.specs.Prelude.{◌≡◌, length, map, slice_get, take, drop, IfOk};
ghost use Rattle.std.specs.Option.{option_copied};
ghost use Rattle.cs_eval_values.specs.Lending.{lent_object};

use cs_base::{Memory, Sequence};
use cs_eval_shared::SharedObject;
use cs_tx_value::{Digest, Object};
use std::alloc::Global;
use std::marker::Model;

/// Objects that are lent.
#[derive(Drop)]
pub struct Objects<'a> {
    placed: Placed<'a>,
}

/// Those of a view stand alone, those of a trace beside their keys.
#[derive(Clone, Copy)]
enum Placed<'a> {
    Alone(&'a [Object]),
    Keyed(&'a [(Digest, Object)]),
}

impl<'a> Model for Objects<'a> {
    ghost use Rattle.std.specs.Prelude.{List};
    ghost use Rattle.std.specs.Coded.{coded_list};
    ghost use Rattle.cs_tx_value.specs.declared.object.Object.{Object};
    ghost use Rattle.cs_tx_value.specs.contracts.object.Object as objects;

    ghost Value = { List Object };

    ghost coded = { coded_list objects.the_row.coded };

    ghost use Rattle.cs_eval_values.specs.Placing.{placed_objects};

    ghost view = { λ s. placed_objects s.placed };
}

impl<'a> Objects<'a> {
    /// Those that stand alone.
    pub fn alone(objects: &'a [Object]) -> Objects<'a>
        ensures { result ≡ objects.now }
    {
        Objects {
            placed: Placed::Alone(objects),
        }
    }

    /// Those that stand beside their keys.
    pub fn keyed(objects: &'a [(Digest, Object)]) -> Objects<'a>
        ensures { result ≡ map lent_object objects.now }
    {
        Objects {
            placed: Placed::Keyed(objects),
        }
    }

    /// The same once more.
    pub fn share(&self) -> Objects<'a>
        ensures { result ≡ self.now }
    {
        Objects {
            placed: self.placed,
        }
    }

    /// The number of objects.
    pub fn len(&self) -> usize
        ensures { result ≡ length self.now }
    {
        match self.placed {
            Placed::Alone(objects) => objects.len(),
            Placed::Keyed(objects) => objects.len(),
        }
    }

    /// The object at a place.
    pub fn get(&self, place: usize) -> Option<&'a Object>
        ensures { option_copied result ≡ slice_get self.now place }
    {
        match self.placed {
            Placed::Alone(objects) => objects.get(place),
            Placed::Keyed(objects) => match objects.get(place) {
                Some(keyed) => Some(&keyed.1),
                None => None,
            },
        }
    }

    /// So many of them at the front.
    pub fn front(&self, count: usize) -> Objects<'a>
        ensures { result ≡ take count self.now }
    {
        match self.placed {
            Placed::Alone(objects) => Objects::alone(objects.split_at(count.min(objects.len())).0),
            Placed::Keyed(objects) => Objects::keyed(objects.split_at(count.min(objects.len())).0),
        }
    }

    /// Those behind so many.
    pub fn behind(&self, count: usize) -> Objects<'a>
        ensures { result ≡ drop count self.now }
    {
        match self.placed {
            Placed::Alone(objects) => Objects::alone(objects.split_at(count.min(objects.len())).1),
            Placed::Keyed(objects) => Objects::keyed(objects.split_at(count.min(objects.len())).1),
        }
    }
}

/// The objects, with their values ready to be shared.
pub fn kept_each<'a>(
    alloc: Global,
    objects: &Objects<'a>,
) -> Result<Sequence<SharedObject<'a>>, Memory>
    ensures { IfOk result (λ kept. kept ≡ objects.now) }
{
    let mut kept = Sequence::new(alloc);
    for i in 0..objects.len() {
        if let Some(object) = objects.get(i) {
            kept.push(SharedObject::new(alloc, object)?)?;
        }
    }
    Ok(kept)
}
