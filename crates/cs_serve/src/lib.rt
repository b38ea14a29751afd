//! Serves a node, and runs a client, over a link: each is given the inputs of the link, what it
//! says is offered, and what a node executes is printed.
#![tactic(auto)]

mod attending;
mod client_ending;
mod ending;
mod offering;
mod receiving;
mod serving;
mod telling;

pub use attending::attend;
pub use client_ending::Ending;
pub use ending::End;
pub use offering::offer;
pub use receiving::{MOST_MISSED, receive};
pub use serving::{answer, serve};
pub use telling::tell;
