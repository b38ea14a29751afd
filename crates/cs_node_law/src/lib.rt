//! Theorems on the worlds of nodes that keep the rules.
#![tactic(auto)]

mod rules;

pub use rules::{
    a_dropped_datagram_changes_nothing, cuts_are_alike, events_end_quiet, marks_are_made,
};
