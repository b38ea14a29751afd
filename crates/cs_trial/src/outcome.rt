//! What a case comes to.

/// What a case comes to. Places are offsets into the contract's text.
#[derive(Clone, Copy, Debug, PartialEq, Eq)]
pub enum Outcome {
    /// All checks say yes, and may cost so much.
    Yes(u64),
    /// A check says no, by the `answer` at this place, if there is one.
    No(Option<usize>),
    /// A procedure or a check traps at this place.
    Trap(usize),
    /// Objects or arguments don't fit the method.
    Args,
    /// What is made is too large for a transaction.
    Large,
}
