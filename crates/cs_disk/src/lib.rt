//! A disk with one file, by what a crash may leave of it; and its form in memory.
#![tactic(auto)]

mod disk;
mod mem_disk;
mod state;

pub use disk::{Attached, Disk, DiskRead, Length, Synced, Wrote};
pub use mem_disk::MemDisk;
pub use state::Rest;
