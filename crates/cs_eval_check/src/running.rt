//! What a check works with.
use crate::task::Task;
use cs_eval::{Frame, Stack};
use cs_eval_values::Names;

/// The names in sight, what is left to do of statements, and what is left to do of the expression
/// that is evaluated.
#[derive(Drop)]
pub struct Running<'a> {
    pub names: Names<'a>,
    pub tasks: Stack<Task<'a>>,
    pub frames: Stack<Frame<'a>>,
}
