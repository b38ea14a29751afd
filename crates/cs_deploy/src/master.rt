//! The master key of a site, by its hex.
ghost use Rattle.std.specs.Prelude.{◌≡◌};
ghost use Rattle.cs_deploy.specs.Master.{is_end, master_in, master_of};

use crate::limits::MASTER_DIGITS;
use cs_tx_value::Digest;
use hex::FromHex;

/// The key of which the word is the hex.
pub fn master_in(word: &[u8]) -> Option<Digest>
    ensures { result ≡ master_in word.now }
{
    <[u8; 32] as FromHex>::from_hex(word).ok()
}

fn is_end(rest: &[u8]) -> bool
    ensures { result ≡ is_end rest.now }
{
    rest.is_empty() || rest == b"\n".as_slice()
}

/// The key that a text says: its hex, with one line feed or none behind it.
pub fn master_of(text: &[u8]) -> Option<Digest>
    ensures { result ≡ master_of text.now }
{
    let (digits, rest) = text.split_at(MASTER_DIGITS.min(text.len()));
    if is_end(rest) {
        master_in(digits)
    } else {
        None
    }
}
