//! Cases of a contract.
use cs_base::Sequence;
use cs_tx_value::{Digest, Name, Object, Value};

/// What is wanted of a case.
#[derive(Clone, Copy, Debug, PartialEq, Eq)]
pub enum Wanted {
    Yes,
    No,
    Trap,
}

/// What is asked of a case.
#[derive(Drop)]
pub enum Asked {
    /// Nothing: what the procedure makes is shown.
    Shown,
    /// That the checks of what the procedure makes say this.
    Made(Wanted),
    /// That the check says this of a trace with these outputs and returned values.
    Given(Sequence<Object>, Sequence<Value>, Wanted),
}

/// A case: a call of a method, and what is asked of it. No check sees the key of an object; all have
/// one key.
#[derive(Drop)]
pub struct Case {
    pub method: Name,
    pub inputs: Sequence<(Digest, Object)>,
    pub references: Sequence<(Digest, Object)>,
    pub arguments: Sequence<Value>,
    pub asked: Asked,
}
