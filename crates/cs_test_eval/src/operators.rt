//! What the plain evaluator makes of what it has made.
use crate::made::{Halt, Made};
use cs_lang::{Comparison, Operator};
use cs_tx_value::{Encoded, Value};
use sha2::{Digest, Sha256};
use std::alloc::Global;

/// What an operator makes of two ints, in 128 bits.
pub fn arithmetic(operator: Operator, x: i128, y: i128) -> Result<Made, Halt> {
    match operator {
        Operator::Plus => Made::int(x.wrapping_add(y)),
        Operator::Minus => Made::int(x.wrapping_sub(y)),
        Operator::Times => Made::int(x.wrapping_mul(y)),
        Operator::Divide => Made::int(x.checked_div(y).ok_or(Halt::Trap)?),
        Operator::Remainder => {
            let quotient = x.checked_div(y).ok_or(Halt::Trap)?;
            Made::int(quotient)?;
            Made::int(x.wrapping_sub(quotient.wrapping_mul(y)))
        }
        _ => Err(Halt::Trap),
    }
}

fn ordered(comparison: Comparison, x: i64, y: i64) -> bool {
    match comparison {
        Comparison::Equal => x == y,
        Comparison::NotEqual => x != y,
        Comparison::Less => x < y,
        Comparison::LessOrEqual => x < y || x == y,
        Comparison::Greater => !(x < y || x == y),
        Comparison::GreaterOrEqual => !(x < y),
    }
}

fn equal(comparison: Comparison, same: bool) -> Result<Made, Halt> {
    match comparison {
        Comparison::Equal => Ok(Made::truth(same)),
        Comparison::NotEqual => Ok(Made::truth(!same)),
        _ => Err(Halt::Trap),
    }
}

pub fn compared(comparison: Comparison, left: Made, right: Made) -> Result<Made, Halt> {
    match (left.into_value()?, right.into_value()?) {
        (Value::Int(x), Value::Int(y)) => Ok(Made::truth(ordered(comparison, x, y))),
        (Value::Bool(x), Value::Bool(y)) => equal(comparison, x == y),
        (Value::Bytes(x), Value::Bytes(y)) => equal(comparison, x.as_slice() == y.as_slice()),
        _ => Err(Halt::Trap),
    }
}

pub fn joined(front: Made, back: Made) -> Result<Made, Halt> {
    match (front.into_value()?, back.into_value()?) {
        (Value::Bytes(x), Value::Bytes(y)) => {
            let mut all = x.into_vec();
            all.extend_from_slice(y.as_slice())?;
            if all.len() > 256 {
                return Err(Halt::Trap);
            }
            Ok(Made::bytes(all))
        }
        (Value::List(x), Value::List(y)) => {
            let mut all = x.into_vec();
            all.append(&mut y.into_vec())?;
            if all.len() > 64 {
                return Err(Halt::Trap);
            }
            Made::list(all)
        }
        _ => Err(Halt::Trap),
    }
}

pub fn length(made: &Made) -> Result<Made, Halt> {
    match made {
        Made::Plain(Value::Bytes(bytes)) => Made::int(bytes.len() as i128),
        Made::Plain(Value::List(items)) => Made::int(items.len() as i128),
        Made::Many(objects) => Made::int(objects.len() as i128),
        _ => Err(Halt::Trap),
    }
}

pub fn hashed(alloc: Global, made: Made) -> Result<Made, Halt> {
    match made.into_value()? {
        Value::Bytes(bytes) => {
            let hash = Sha256::digest(bytes.as_slice());
            Ok(Made::bytes(Vec::from_slice(alloc, hash.as_slice())?))
        }
        _ => Err(Halt::Trap),
    }
}

/// The item or object at a place.
pub fn item(alloc: Global, made: &Made, place: i128) -> Result<Made, Halt> {
    let place = usize::try_from(place).map_err(|_| Halt::Trap)?;
    match made {
        Made::Plain(Value::List(items)) => {
            let item = items.as_slice().get(place).ok_or(Halt::Trap)?;
            Ok(Made::Plain(item.copy(alloc)?))
        }
        Made::Many(objects) => {
            let object = objects.as_slice().get(place).ok_or(Halt::Trap)?;
            Ok(Made::One(object.copy(alloc)?))
        }
        _ => Err(Halt::Trap),
    }
}

/// What a loop goes over.
pub fn items(alloc: Global, made: Made) -> Result<Vec<Made>, Halt> {
    let mut items = Vec::new(alloc);
    match made {
        Made::Plain(Value::List(values)) => {
            for value in values.into_vec() {
                items.push(Made::Plain(value))?;
            }
        }
        Made::Many(objects) => {
            for object in objects.into_vec() {
                items.push(Made::One(object))?;
            }
        }
        _ => return Err(Halt::Trap),
    }
    Ok(items)
}
