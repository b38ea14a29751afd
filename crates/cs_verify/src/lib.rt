//! What a proof shows to someone who ran nothing: the lines in which it is handed in, their reader,
//! and what is answered.
#![tactic(auto)]

mod answer;
mod claim;
mod datagram;
mod judging;
mod lines;
mod reader;
mod values;

pub use answer::verdict_text;
pub use claim::Claim;
pub use judging::{Verdict, judge};
