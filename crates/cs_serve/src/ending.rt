//! How serving ends.

/// How the serving of a node ends.
#[derive(Clone, Copy, Debug, PartialEq, Eq)]
pub enum End {
    /// It took as many inputs as it was to take.
    Done,
    /// The link has nothing left.
    Ended,
    /// Too many receives in a row failed.
    LinkFault,
    /// A line could not be written.
    WriteFault,
    /// There was not enough memory.
    Memory,
}
