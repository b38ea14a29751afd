//! What a name stands for and an expression gives.
ghost use Rattle.std.specs.Prelude.{◌≡◌, [], is_some, slice_get, IfOk};
ghost use Rattle.std.specs.Option.{option_copied};
ghost use Rattle.cs_eval_values.specs.Datums.{Plain, One, Many, int_of, bool_of, bytes_of_datum, object_of_datum, length_of, items_of, plain_item, object_item, item_of_datum, plain_of};
ghost use Rattle.cs_tx_value.specs.declared.value.Value.TheVariants as value;

use crate::objects::{Objects, kept_each};
use cs_base::{Memory, Sequence};
use cs_eval_shared::{Open, Shared, SharedObject, owned_of, shared_of, value_of};
use cs_tx_value::{Object, Value};
use std::alloc::Global;
use std::marker::Model;
use std::rc::Rc;

/// A value, an object, or the objects of a slot for any number. To hold it once more copies nothing.
#[derive(Drop)]
pub struct Held<'a> {
    inner: Inner<'a>,
}

#[derive(Drop)]
enum Inner<'a> {
    Plain(Shared<'a>),
    One(SharedObject<'a>),
    Many(Rc<Sequence<SharedObject<'a>>>),
}

impl<'a> Model for Held<'a> {
    ghost use Rattle.std.specs.Coded.{codes};
    ghost use Rattle.cs_tx_value.specs.contracts.value.Value as values;
    ghost use Rattle.cs_eval_values.specs.Datums.{Datum};
    ghost use Rattle.cs_eval_values.specs.Coding.{datum_code};

    ghost Value = { Datum };

    ghost coded = { datum_code };

    ghost use Rattle.cs_eval_values.specs.Inside.{datum_in};

    ghost view = { λ h. datum_in h.inner };
}

impl<'a> Held<'a> {
    /// An int.
    pub fn int(number: i64) -> Held<'a>
        ensures { result ≡ Plain (value.Int number) }
    {
        Held::plain(Shared::int(number))
    }

    /// A bool.
    pub fn truth(truth: bool) -> Held<'a>
        ensures { result ≡ Plain (value.Bool truth) }
    {
        Held::plain(Shared::truth(truth))
    }

    /// Bytes that stand in the text or in the view.
    pub fn text(bytes: &'a [u8]) -> Held<'a>
        ensures { result ≡ Plain (value.Bytes bytes.now) }
    {
        Held::plain(Shared::text(bytes))
    }

    /// A value.
    pub fn plain(value: Shared<'a>) -> Held<'a>
        ensures { result ≡ Plain value.entry }
    {
        Held {
            inner: Inner::Plain(value),
        }
    }

    /// The list without items.
    pub fn empty(alloc: Global) -> Result<Held<'a>, Memory>
        ensures { IfOk result (λ held. held ≡ Plain (value.List [])) }
    {
        Ok(Held::plain(Shared::empty(alloc)?))
    }

    /// A value that stands in the view.
    pub fn lent(alloc: Global, value: &'a Value) -> Result<Held<'a>, Memory>
        ensures { IfOk result (λ held. held ≡ Plain value.now) }
    {
        Ok(Held::plain(shared_of(alloc, value)?))
    }

    /// A value that stands somewhere else, which is copied.
    pub fn own(alloc: Global, value: &Value) -> Result<Held<'a>, Memory>
        ensures { IfOk result (λ held. held ≡ Plain value.now) }
    {
        Ok(Held::plain(owned_of(alloc, value)?))
    }

    /// An object that stands in the view.
    pub fn one(alloc: Global, object: &'a Object) -> Result<Held<'a>, Memory>
        ensures { IfOk result (λ held. held ≡ One object.now) }
    {
        Ok(Held {
            inner: Inner::One(SharedObject::new(alloc, object)?),
        })
    }

    /// Objects that stand in the view.
    pub fn many(alloc: Global, objects: &Objects<'a>) -> Result<Held<'a>, Memory>
        ensures { IfOk result (λ held. held ≡ Many objects.now) }
    {
        let kept = kept_each(alloc, objects)?;
        Ok(Held {
            inner: Inner::Many(Rc::new(alloc, kept)?),
        })
    }

    /// The same once more.
    pub fn share(&self) -> Result<Held<'a>, Memory>
        ensures { IfOk result (λ held. held ≡ self.now) }
    {
        let inner = match &self.inner {
            Inner::Plain(value) => Inner::Plain(value.share()?),
            Inner::One(object) => Inner::One(object.share()?),
            Inner::Many(objects) => Inner::Many(objects.clone()?),
        };
        Ok(Held { inner })
    }

    /// The int that it is.
    pub fn as_int(&self) -> Option<i64>
        ensures { result ≡ int_of self.now }
    {
        match &self.inner {
            Inner::Plain(value) => value.as_int(),
            _ => None,
        }
    }

    /// The bool that it is.
    pub fn as_bool(&self) -> Option<bool>
        ensures { result ≡ bool_of self.now }
    {
        match &self.inner {
            Inner::Plain(value) => value.as_bool(),
            _ => None,
        }
    }

    /// The bytes that it is.
    pub fn as_bytes(&self) -> Option<&[u8]>
        ensures { option_copied result ≡ bytes_of_datum self.now }
    {
        match &self.inner {
            Inner::Plain(value) => value.as_bytes(),
            _ => None,
        }
    }

    /// The object that it is.
    pub fn as_object(&self) -> Option<&SharedObject<'a>>
        ensures { option_copied result ≡ object_of_datum self.now }
    {
        match &self.inner {
            Inner::One(object) => Some(object),
            _ => None,
        }
    }

    /// Its length, where it is bytes, a list or objects.
    pub fn length(&self) -> Option<usize>
        ensures { result ≡ length_of self.now }
    {
        match &self.inner {
            Inner::Plain(value) => value.length(),
            Inner::Many(objects) => Some(objects.as_ref().len()),
            _ => None,
        }
    }

    /// Whether it is a list or objects.
    pub fn has_items(&self) -> bool
        ensures { result ≡ is_some (items_of self.now) }
    {
        match &self.inner {
            Inner::Plain(value) => value.is_list(),
            Inner::Many(_) => true,
            _ => false,
        }
    }

    /// The item at a place, where it is a list or objects and has one there.
    pub fn item(&self, place: usize) -> Result<Option<Held<'a>>, Memory>
        ensures { IfOk result (λ item. item ≡ item_of_datum self.now place) }
    {
        match &self.inner {
            Inner::Plain(value) => item_in(value, place),
            Inner::Many(objects) => kept_at(objects.as_ref().as_slice(), place),
            _ => Ok(None),
        }
    }

    /// The value that it is.
    pub fn into_shared(self) -> Option<Shared<'a>>
        ensures { result ≡ plain_of self.entry }
    {
        match self.inner {
            Inner::Plain(value) => Some(value),
            _ => None,
        }
    }

    /// The value that it is, by itself.
    pub fn value(self, alloc: Global) -> Result<Option<Value>, Memory>
        ensures { IfOk result (λ value. value ≡ plain_of self.entry) }
    {
        match self.inner {
            Inner::Plain(value) => Ok(Some(value_of(alloc, &value)?)),
            _ => Ok(None),
        }
    }
}

/// The item of a list at a place.
fn item_in<'a>(value: &Shared<'a>, place: usize) -> Result<Option<Held<'a>>, Memory>
    ensures { IfOk result (λ item. item ≡ item_of_datum (Plain value.now) place) }
{
    match value.open() {
        Open::List(items) => shared_at(items, place),
        _ => Ok(None),
    }
}

/// A value at a place.
fn shared_at<'a>(items: &[Shared<'a>], place: usize) -> Result<Option<Held<'a>>, Memory>
    ensures { IfOk result (λ item. item ≡ plain_item (slice_get items.now place)) }
{
    match items.get(place) {
        Some(item) => Ok(Some(Held::plain(item.share()?))),
        None => Ok(None),
    }
}

/// An object at a place.
fn kept_at<'a>(objects: &[SharedObject<'a>], place: usize) -> Result<Option<Held<'a>>, Memory>
    ensures { IfOk result (λ item. item ≡ object_item (slice_get objects.now place)) }
{
    match objects.get(place) {
        Some(object) => Ok(Some(Held {
            inner: Inner::One(object.share()?),
        })),
        None => Ok(None),
    }
}
