//! What a client notes to tell why it knows nothing of its session: which objects of its call nodes
//! told as used up, and which nodes it asked and heard; and the lines of that.
#![tactic(auto)]

mod lines;
mod noted;
mod notes;
mod words;

pub use noted::NotedClient;
