//! Runs a cluster: a child program for each node of a site, and one for each call of a plan.
#![tactic(auto)]

mod children;
mod error;
mod running;
mod words;

pub use error::ClusterError;
pub use running::cluster;
