//! The outside of a running node: files, datagrams and child programs, each with its form in
//! memory, and how long inputs are taken. Beside it what commands share: numbers among their
//! words, and the status they end with.
#![tactic(auto)]

mod ending;
mod files;
mod link;
mod mem_link;
mod mem_spawner;
mod mem_store;
mod numbers;
mod spawner;
mod store;
mod text;
mod until;

pub use ending::closing;
pub use link::{Arrived, Bound, Link, MemInput, Placed, Sent};
pub use mem_link::MemLink;
pub use mem_spawner::MemSpawner;
pub use mem_store::MemStore;
pub use numbers::read_short_number;
pub use spawner::{Spawner, Started, Stopped, Waited};
pub use store::{Loaded, Saved, Store};
pub use text::Text;
pub use until::Until;
