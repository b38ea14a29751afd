//! Coins.
use cs_base::{Memory, Sequence};
use cs_tx_value::{Digest, Name, Object, Value};
use std::alloc::Global;

/// SHA-256 of the five bytes `token`: the contract that knows coins.
pub const TOKEN: Digest = [
    0x3c, 0x46, 0x9e, 0x9d, 0x6c, 0x58, 0x75, 0xd3, 0x7a, 0x43, 0xf3, 0x53, 0xd4, 0xf8, 0x8e, 0x61,
    0xfc, 0xf8, 0x12, 0xc6, 0x6e, 0xee, 0x34, 0x57, 0x46, 0x5a, 0x40, 0xb0, 0xda, 0x41, 0x53, 0xe0,
];

/// A coin of `token`: an object of type `coin` with one int.
pub fn coin(alloc: Global, worth: i64) -> Result<Object, Memory> {
    let mut values = Sequence::new(alloc);
    values.push(Value::Int(worth))?;
    Ok(Object {
        contract: TOKEN,
        type_name: Name::from_vec(Vec::from_slice(alloc, b"coin")?),
        values,
    })
}
