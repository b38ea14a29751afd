//! Kinds and costs of expressions of contract texts.
#![tactic(auto)]

mod declared;
mod expressions;
mod fault;
mod kind;
mod scope;

pub use declared::{declared_kind, field_kind, method_number, type_number};
pub use expressions::{HASH_COST, Judged, comparing_cost, expect, judge, plus};
pub use fault::TypeError;
pub use kind::{BOOL, BYTES, Base, INT, Kind, kind_of};
pub use scope::{Costs, Entry, Scope, Seen, Use};
