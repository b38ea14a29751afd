//! The changes of a shard's members to later views,
//! and which digests they make safe to propose there.
#![tactic(auto)]

mod changes;
mod claims;
mod reach;
mod slot_changes;

pub use changes::Changes;
pub use cs_order_rules::Change;
pub use slot_changes::SlotChanges;
