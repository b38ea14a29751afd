//! What a wallet is called to do.
use cs_onetime::Digest;

/// What is done with the wallet of a file.
#[derive(Clone, Copy, Debug, PartialEq, Eq)]
pub enum WalletCall {
    /// A wallet of this seed is saved, whatever the file held.
    New(Digest),
    /// The public key of a number is printed.
    Key(u64),
    /// A message is signed under a number, and the signature printed.
    Sign(u64, Digest),
}
