//! The auditor: it executes the logs of a dump anew, and trusts none of those who kept them.
#![tactic(auto)]

mod auditing;
mod history;
mod ledger;
mod logs;
mod setting;
mod stand;
mod support;
mod text;
mod votes;

pub use auditing::audit;
pub use cs_audit_rules::{Fault, Rule, Verdict};
pub use text::{verdict_status, verdict_text};
