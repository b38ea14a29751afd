//! A client whose call is made again after it was aborted, under the next number, and one that tells
//! the details of its session: its tries, what is printed of them, and the loop over a link.
#![tactic(auto)]

mod ending;
mod trying;

pub use ending::TryEnding;
pub use trying::attend_tries;
