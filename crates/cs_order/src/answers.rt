//! What the calls of an order hand out and answer.
use crate::proposed::Proposed;
use cs_base::Sequence;

/// A message for one member, or at `None` for all others.
#[derive(Drop)]
pub struct Outgoing<M> {
    pub to: Option<u16>,
    pub message: M,
}

/// What became of a message. All but `Taken` leave the order as it was.
#[derive(Clone, Copy, Debug, PartialEq, Eq)]
pub enum Took {
    Taken,
    /// Its slot is below the open one.
    Old,
    /// Its slot is too far above the open one.
    Far,
    /// It proposes in a view that its sender doesn't lead.
    Leader,
    /// The sender's message of this slot, kind and view was taken before.
    Repeat,
}

/// What `advance` did.
#[derive(Drop)]
pub enum Step {
    /// The open slot has this entry, and the next slot is open.
    Chosen(Proposed),
    Moved,
    /// Nothing was left to do.
    Quiet,
}

/// What the member may propose.
#[derive(Drop)]
pub enum May {
    No,
    /// Any entry.
    Free,
    /// These alone, the first to be tried first. There may be none.
    Only(Sequence<Proposed>),
}
