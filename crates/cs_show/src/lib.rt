//! Looking a key up: a client asks all nodes of its shard for its state, and believes what f+1 of
//! them told last.
#![tactic(auto)]

mod ending;
mod keys;
mod laws;
mod lines;
mod looker;
mod looking;
mod lookup;
mod words;

pub use ending::Ending;
pub use keys::read_key;
pub use laws::what_is_seen_was_told;
pub use lines::state_line;
pub use looker::Looker;
pub use looking::look;
pub use lookup::Lookup;
