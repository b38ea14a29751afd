//! What is left to do of statements.
use cs_eval_values::Held;
use cs_lang::{Block, Statement};
use cs_types_kinds::Kind;

/// What a loop goes over: so many numbers from 0, or the items of a list or objects.
#[derive(Drop)]
pub enum Source<'a> {
    Numbers(u16),
    Items(Held<'a>),
}

/// A loop that stands before a turn.
#[derive(Drop)]
pub struct Loop<'a> {
    pub name: &'a [u8],
    pub offset: usize,
    pub kind: Kind,
    pub each: &'a Block,
    pub source: Source<'a>,
    pub at: u16,
}

/// What is left to do of statements.
#[derive(Drop)]
pub enum Task<'a> {
    Statements(&'a [Statement]),
    /// All but so many names end.
    Leave(usize),
    Loop(Loop<'a>),
}
