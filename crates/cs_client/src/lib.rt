//! A client: it believes what f+1 nodes say of the objects of its call, runs the method, submits
//! the session to all shards that it concerns, and knows what f+1 nodes say has become of it.
#![tactic(auto)]

mod beliefs;
mod calling;
mod clients;
mod counting;
mod errand;
mod error;
mod known;
mod nodes;
mod objects;
mod offers;
mod phases;
mod sayings;
mod sessions;
mod waiting;

pub use clients::ClientCore;
pub use cs_wire::{Input, Out};
pub use errand::Errand;
pub use error::ClientError;
pub use known::{Known, known_line};
pub use nodes::nodes_of;
pub use offers::say;
pub use waiting::Waiting;
