//! What the run of a procedure works with.
use cs_eval::{Frame, Stack};
use cs_eval_check::Task;
use cs_proc_parts::Doing;

/// What the procedure works on, what is left to do of its statements, and what is left to do of the
/// expression that is evaluated.
#[derive(Drop)]
pub struct Running<'a> {
    pub doing: Doing<'a>,
    pub tasks: Stack<Task<'a>>,
    pub frames: Stack<Frame<'a>>,
}
