//! The order among 3f+1 members of which f may lie.
#![tactic(auto)]

mod later;
mod replica;
mod saying;
mod slot_order;

pub use cs_order_rules::OrderMessage;
pub use slot_order::SlotOrder;
