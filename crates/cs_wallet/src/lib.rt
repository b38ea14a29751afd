//! A wallet of one-time keys as a file, and the commands over it: a new wallet, the public key of a
//! number, a signature.
#![tactic(auto)]

mod calls;
mod cause;
mod commands;
mod entry;
mod error;
mod loading;
mod printing;
mod ranges;
mod reading;
mod saving;
mod telling;

pub use calls::WalletCall;
pub use cause::{Cause, Untaken};
pub use commands::run_wallet;
pub use entry::Entry;
pub use error::FileError;
pub use loading::{MOST_WALLET, take_wallet};
pub use printing::print_wallet;
pub use reading::read_wallet;
