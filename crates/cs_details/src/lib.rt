//! What a client prints of a session that it submits, and of a transaction that is accepted.
#![tactic(auto)]

mod lines;

pub use lines::{session_line, tx_lines};
