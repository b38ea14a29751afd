//! Nodes that run make a world, so what is true of worlds is true of them.
#![tactic(auto)]

mod running;

pub use running::{keys_of_files_speak, nodes_serve_their_trails, running_nodes_are_sound};
