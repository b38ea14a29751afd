//! One node: its keys, its order, its table and pool, and what it does on each input.
#![tactic(auto)]

mod asks;
mod draft;
mod engine;
mod executions;
mod handing;
mod heads;
mod hearing;
mod members;
mod node_core;
mod nodes;
mod outs;
mod sending;
mod speaking;
mod submits;
mod ticking;
mod votes;

pub use cs_node_wire::Carried;
pub use cs_sbac::Effect;
pub use cs_wire::{Input, Out};
pub use draft::Note;
pub use node_core::Core;
pub use nodes::StartError;
pub use outs::Made;
pub use speaking::keys_of_a_master_speak;
