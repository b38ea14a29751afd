//! Calls of methods.
use cs_base::Sequence;
use cs_tx_value::{Digest, Object, Value};

/// A call of a contract's method: the objects that it may use up and read, each beside the 32 bytes
/// of its key, and its arguments.
#[derive(Drop)]
pub struct Call {
    pub contract: Digest,
    pub method: Sequence<u8>,
    pub inputs: Sequence<(Digest, Object)>,
    pub reads: Sequence<(Digest, Object)>,
    pub args: Sequence<Value>,
}
