//! Values whose parts are shared.
ghost use Rattle.std.specs.Prelude.{◌≡◌, [], length, is_some, IfOk};
ghost use Rattle.std.specs.Option.{option_copied};
ghost use Rattle.cs_tx_value.specs.declared.value.Value.{out-Value};
ghost use Rattle.cs_tx_value.specs.declared.value.Value.TheVariants as value;
ghost use Rattle.cs_tx_value.specs.Encoding.{value_encoding};
ghost use Rattle.cs_eval_shared.specs.Parts.{int_in, bool_in, bytes_in, length_in, values_in};
ghost use Rattle.cs_eval_shared.specs.Within.{list_within};
ghost use Rattle.cs_eval_shared.specs.Layers.{layer_of};

use crate::measure::list_room;
use cs_base::{Memory, Sequence};
use cs_tx_value::Value;
use std::alloc::Global;
use std::marker::Model;
use std::rc::Rc;

/// A value whose parts are shared.
#[cycle(shared)]
#[derive(Drop)]
pub struct Shared<'a> {
    form: Form<'a>,
}

/// How it is stored: a list with the length of its encoding, which so is never measured again.
#[cycle(shared)]
#[derive(Drop)]
enum Form<'a> {
    Int(i64),
    Bool(bool),
    /// Bytes that stand in a text or in a view.
    Text(&'a [u8]),
    /// Bytes that were computed.
    Bytes(Rc<Sequence<u8>>),
    List(Rc<Sequence<Shared<'a>>>, usize),
}

impl<'a> Model for Shared<'a> {
    ghost use Rattle.cs_tx_value.specs.declared.value.Value.{Value as Plain};
    ghost use Rattle.cs_tx_value.specs.contracts.value.Value as values;

    ghost Value = { Plain };

    ghost coded = { values.the_row.coded };

    ghost use Rattle.std.specs.Prelude.{length};
    ghost use Rattle.cs_tx_value.specs.Encoding.{value_encoding};
    ghost use Rattle.cs_eval_shared.specs.Forms.{value_of, IsMeasured};

    ghost view = { λ s. value_of s.form };

    ghost invariant = { λ s. IsMeasured s.form };

    ghost size = { λ v. length (value_encoding v) };

    ghost use Rattle.cs_eval_shared.specs.Falls.{parts_shorter};

    ghost size_decreases = { λ s h. parts_shorter s.form };
}

/// What a value is made of.
#[derive(Clone, Copy)]
pub enum Open<'s, 'a> {
    Int(i64),
    Bool(bool),
    Bytes(&'s [u8]),
    List(&'s [Shared<'a>]),
}

impl<'a> Shared<'a> {
    /// An int.
    pub fn int(number: i64) -> Shared<'a>
        ensures { result ≡ value.Int number }
    {
        Shared {
            form: Form::Int(number),
        }
    }

    /// A bool.
    pub fn truth(truth: bool) -> Shared<'a>
        ensures { result ≡ value.Bool truth }
    {
        Shared {
            form: Form::Bool(truth),
        }
    }

    /// Bytes that stand in a text or in a view.
    pub fn text(bytes: &'a [u8]) -> Shared<'a>
        ensures { result ≡ value.Bytes bytes.now }
    {
        Shared {
            form: Form::Text(bytes),
        }
    }

    /// Bytes that were computed.
    pub fn bytes(alloc: Global, bytes: Sequence<u8>) -> Result<Shared<'a>, Memory>
        ensures { IfOk result (λ s. s ≡ value.Bytes bytes) }
    {
        Ok(Shared {
            form: Form::Bytes(Rc::new(alloc, bytes)?),
        })
    }

    /// The list without items.
    #[tactic(auto, using(cs_tx_value::specs::laws::Layers::writes))]
    pub fn empty(alloc: Global) -> Result<Shared<'a>, Memory>
        ensures { IfOk result (λ s. s ≡ value.List []) }
    {
        Ok(Shared {
            form: Form::List(Rc::new(alloc, Sequence::new(alloc))?, 2),
        })
    }

    /// The list of the items, where its encoding has at most so many bytes.
    pub fn list(
        alloc: Global,
        items: Sequence<Shared<'a>>,
        most: usize,
    ) -> Result<Option<Shared<'a>>, Memory>
        ensures { IfOk result (λ found. found ≡ list_within items.entry most) }
    {
        let Some(left) = list_room(items.as_slice(), most) else {
            return Ok(None);
        };
        Ok(Some(Shared {
            form: Form::List(Rc::new(alloc, items)?, most - left),
        }))
    }

    /// The same once more.
    pub fn share(&self) -> Result<Shared<'a>, Memory>
        ensures { IfOk result (λ s. s ≡ self.now) }
    {
        let form = match &self.form {
            Form::Int(number) => Form::Int(*number),
            Form::Bool(truth) => Form::Bool(*truth),
            Form::Text(bytes) => Form::Text(*bytes),
            Form::Bytes(bytes) => Form::Bytes(bytes.clone()?),
            Form::List(items, length) => Form::List(items.clone()?, *length),
        };
        Ok(Shared { form })
    }

    /// What it is made of.
    pub fn open(&self) -> Open<'_, 'a>
        ensures { layer_of result ≡ out-Value self.now }
    {
        match &self.form {
            Form::Int(number) => Open::Int(*number),
            Form::Bool(truth) => Open::Bool(*truth),
            Form::Text(bytes) => Open::Bytes(*bytes),
            Form::Bytes(bytes) => Open::Bytes(bytes.as_ref().as_slice()),
            Form::List(items, _) => Open::List(items.as_ref().as_slice()),
        }
    }

    /// The length of its encoding, which isn't measured for a list.
    #[tactic(auto, using(cs_tx_value::specs::laws::Layers::writes))]
    pub fn encoded(&self) -> usize
        ensures { result ≡ length (value_encoding self.now) }
    {
        match &self.form {
            Form::Int(_) => 9,
            Form::Bool(_) => 2,
            Form::Text(bytes) => bytes.len() + 3,
            Form::Bytes(bytes) => bytes.as_ref().as_slice().len() + 3,
            Form::List(_, length) => *length,
        }
    }

    /// The int that it is.
    pub fn as_int(&self) -> Option<i64>
        ensures { result ≡ int_in (out-Value self.now) }
    {
        match self.open() {
            Open::Int(number) => Some(number),
            _ => None,
        }
    }

    /// The bool that it is.
    pub fn as_bool(&self) -> Option<bool>
        ensures { result ≡ bool_in (out-Value self.now) }
    {
        match self.open() {
            Open::Bool(truth) => Some(truth),
            _ => None,
        }
    }

    /// The bytes that it is.
    pub fn as_bytes(&self) -> Option<&[u8]>
        ensures { option_copied result ≡ bytes_in (out-Value self.now) }
    {
        match self.open() {
            Open::Bytes(bytes) => Some(bytes),
            _ => None,
        }
    }

    /// Whether it is a list.
    pub fn is_list(&self) -> bool
        ensures { result ≡ is_some (values_in (out-Value self.now)) }
    {
        match self.open() {
            Open::List(_) => true,
            _ => false,
        }
    }

    /// The length of bytes or a list.
    pub fn length(&self) -> Option<usize>
        ensures { result ≡ length_in (out-Value self.now) }
    {
        match self.open() {
            Open::Bytes(bytes) => Some(bytes.len()),
            Open::List(items) => Some(items.len()),
            _ => None,
        }
    }
}
