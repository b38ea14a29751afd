//! What the plain evaluator makes.
use cs_base::{Memory, Sequence};
use cs_tx_value::{Encoded, Object, Value};
use std::alloc::{AllocError, AllocFailed, Global};

/// What a name stands for, or an expression gives.
#[derive(Drop)]
pub enum Made {
    Plain(Value),
    One(Object),
    Many(Sequence<Object>),
}

/// Why an evaluation ends early.
#[derive(Clone, Copy, Debug, PartialEq, Eq)]
pub enum Halt {
    Answer(bool),
    Trap,
    Memory,
}

impl From<Memory> for Halt {
    fn from(_e: Memory) -> Halt {
        Halt::Memory
    }
}

impl From<AllocError> for Halt {
    fn from(_e: AllocError) -> Halt {
        Halt::Memory
    }
}

impl<T: Drop> From<AllocFailed<T>> for Halt {
    fn from(_e: AllocFailed<T>) -> Halt {
        Halt::Memory
    }
}

impl Made {
    /// An int, where it is one of 64 bits.
    pub fn int(number: i128) -> Result<Made, Halt> {
        match i64::try_from(number) {
            Ok(number) => Ok(Made::Plain(Value::Int(number))),
            Err(_) => Err(Halt::Trap),
        }
    }

    pub fn truth(truth: bool) -> Made {
        Made::Plain(Value::Bool(truth))
    }

    pub fn bytes(bytes: Vec<u8>) -> Made {
        Made::Plain(Value::Bytes(Sequence::from_vec(bytes)))
    }

    /// The list, where it is short and its encoding isn't too long.
    pub fn list(items: Vec<Value>) -> Result<Made, Halt> {
        let list = Value::List(Sequence::from_vec(items));
        if size(&list) > 8_192 {
            return Err(Halt::Trap);
        }
        Ok(Made::Plain(list))
    }

    pub fn as_int(&self) -> Result<i128, Halt> {
        match self {
            Made::Plain(Value::Int(number)) => Ok(i128::from(*number)),
            _ => Err(Halt::Trap),
        }
    }

    pub fn as_truth(&self) -> Result<bool, Halt> {
        match self {
            Made::Plain(Value::Bool(truth)) => Ok(*truth),
            _ => Err(Halt::Trap),
        }
    }

    pub fn into_value(self) -> Result<Value, Halt> {
        match self {
            Made::Plain(value) => Ok(value),
            _ => Err(Halt::Trap),
        }
    }

    /// The same by itself.
    pub fn copied(&self, alloc: Global) -> Result<Made, Halt> {
        match self {
            Made::Plain(value) => Ok(Made::Plain(value.copy(alloc)?)),
            Made::One(object) => Ok(Made::One(object.copy(alloc)?)),
            Made::Many(objects) => Ok(Made::Many(copies(alloc, objects.as_slice())?)),
        }
    }
}

/// Equal objects.
pub fn copies(alloc: Global, objects: &[Object]) -> Result<Sequence<Object>, Halt> {
    let mut copied = Sequence::new(alloc);
    for object in objects {
        copied.push(object.copy(alloc)?)?;
    }
    Ok(copied)
}

/// The bytes of a value's encoding, counted by hand.
fn size(value: &Value) -> usize {
    match value {
        Value::Int(_) => 9,
        Value::Bool(_) => 2,
        Value::Bytes(bytes) => bytes.len().saturating_add(3),
        Value::List(items) => {
            let mut sum: usize = 2;
            for item in items.as_slice() {
                sum = sum.saturating_add(size(item));
            }
            sum
        }
    }
}
