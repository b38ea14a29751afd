//! The disk of the system: one file, opened once, read and written by place. It tells no content, and
//! counts its faults.
#![tactic(auto)]

mod file_disk;

pub use file_disk::FileDisk;
