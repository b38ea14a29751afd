//! What a check says.

/// What a check says. Places are offsets into the text of its contract.
#[derive(Clone, Copy, Debug, PartialEq, Eq)]
pub enum Verdict {
    Yes,
    /// No, by the `answer` at this place. Without one it came to its end, or the view doesn't fit.
    No(Option<usize>),
    /// It traps at this place.
    Trap(usize),
}
