//! One-time signatures, whose keys, secrets and images are made by SHA-256 alone, and a wallet that
//! signs no two messages under one number.
#![tactic(auto)]

mod halves;
mod key;
mod laws;
mod signing;
mod texts;
mod verifying;
mod wallet;

pub use cs_hash::Digest;
pub use key::public_key;
pub use laws::{no_number_signs_two_messages, signatures_verify};
pub use texts::Texts;
pub use verifying::{verify, verify_texts};
pub use wallet::{LAST_NUMBER, MOST_USED, Wallet, WalletError};
