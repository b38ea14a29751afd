//! The expressions of contracts: what one gives where it stands in a check, and what that spends;
//! and how many places the stacks of a check take at most, so that they are taken at its start.
#![tactic(auto)]

mod blocks;
mod counts;
mod expressions;
mod frame;
mod kinds;
mod places;
mod scene;
mod stack;

pub use blocks::block_places;
pub use expressions::evaluate;
pub use frame::{Frame, Next};
pub use kinds::kind_given;
pub use places::expr_places;
pub use scene::Scene;
pub use stack::Stack;
