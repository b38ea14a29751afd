//! The outside of a running program: standard input and output, files by name, a UDP socket and
//! child programs. They tell no content, and count their faults.
#![tactic(auto)]

mod children;
mod files;
mod pace;
mod ports;
mod socket;
mod streams;
mod timed_socket;

pub use children::Children;
pub use files::FileStore;
pub use ports::port_of;
pub use socket::UdpLink;
pub use streams::{StandardInput, StandardOutput};
