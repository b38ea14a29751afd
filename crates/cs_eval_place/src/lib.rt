//! Where the checks of contracts end: what one says of a view, with the place of the answer that
//! said no, or of the trap.
#![tactic(auto)]

mod checks;
mod ended;
mod statements;
mod verdict;

pub use checks::check_verdict;
pub use verdict::Verdict;
