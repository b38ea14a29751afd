//! Objects whose values are shared.
ghost use Rattle.std.specs.Prelude.{◌≡◌, slice_get, IfOk};

use crate::copies::each_shared;
use crate::shared::Shared;
use cs_base::{Memory, Sequence};
use cs_tx_value::Object;
use std::alloc::Global;
use std::marker::Model;
use std::rc::Rc;

/// An object that stands in a view, with its values ready to be shared.
#[derive(Drop)]
pub struct SharedObject<'a> {
    object: &'a Object,
    values: Rc<Sequence<Shared<'a>>>,
}

impl<'a> Model for SharedObject<'a> {
    ghost use Rattle.std.specs.Prelude.{◌≡◌};
    ghost use Rattle.cs_tx_value.specs.declared.object.Object.{Object};
    ghost use Rattle.cs_tx_value.specs.contracts.object.Object as objects;

    ghost Value = { Object };

    ghost coded = { objects.the_row.coded };

    ghost view = { λ s. s.object.now };

    ghost invariant = { λ s. s.values.value ≡ s.object.now.values };
}

impl<'a> SharedObject<'a> {
    /// An object that stands in a view.
    pub fn new(alloc: Global, object: &'a Object) -> Result<SharedObject<'a>, Memory>
        ensures { IfOk result (λ kept. kept ≡ object.now) }
    {
        let values = each_shared(alloc, object.values.as_slice())?;
        Ok(SharedObject {
            object,
            values: Rc::new(alloc, values)?,
        })
    }

    /// The object.
    pub fn object(&self) -> &'a Object
        ensures { result.now ≡ self.now }
    {
        self.object
    }

    /// The same once more.
    pub fn share(&self) -> Result<SharedObject<'a>, Memory>
        ensures { IfOk result (λ kept. kept ≡ self.now) }
    {
        Ok(SharedObject {
            object: self.object,
            values: self.values.clone()?,
        })
    }

    /// Its value at a place.
    pub fn value(&self, place: usize) -> Result<Option<Shared<'a>>, Memory>
        ensures { IfOk result (λ found. found ≡ slice_get self.now.values place) }
    {
        match self.values.as_ref().as_slice().get(place) {
            Some(value) => Ok(Some(value.share()?)),
            None => Ok(None),
        }
    }
}
