//! Sharded Byzantine atomic commit at one node, over its table, its pool and its archive: what is
//! admitted and due, the execution of an action, the checkpoints of what was executed, and the
//! genesis objects that all begins with.
#![tactic(auto)]

mod answers;
mod entries;
mod execution;
mod genesis;
mod points;
mod queries;
mod sbac;
mod setting;

pub use answers::{Entered, Outcome};
pub use cs_node_pool::Counted;
pub use cs_table::Effect;
pub use genesis::keyed;
pub use sbac::Sbac;
