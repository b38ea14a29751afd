//! The checks of contracts: what one says of a view, and what that spends.
#![tactic(auto)]

mod checks;
mod running;
mod statements;
mod task;

pub use checks::{check, check_lent};
pub use statements::item;
pub use task::{Loop, Source, Task};
