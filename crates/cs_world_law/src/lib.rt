//! Theorems on all shards together, in every world of nodes that keep the rules: the one history,
//! and what checkpoints show, over any order; and over the order among 3f+1 members, that the
//! second phase of a session is passed.
#![tactic(auto)]

mod heads;
mod phases;
mod worlds;

pub use heads::heads_show_executions;
pub use phases::second_phase;
pub use worlds::settled_world;
