//! The pool of a node: the sessions that wait or are locked, the votes on each, and what is due.
#![tactic(auto)]

mod answers;
mod batch;
mod kept;
mod pool;
mod same;
mod seat;
mod votes;

pub use answers::Counted;
pub use pool::Pool;
pub use votes::is_decided;
