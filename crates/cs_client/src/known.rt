//! What a client knows.
ghost use Rattle.std.specs.Prelude.{◌≡◌, IfOk, string_bytes};
ghost use Rattle.cs_client.specs.Lines.{known_line};

use cs_base::{Memory, print_bytes};
use cs_tx_value::Digest;
use std::alloc::Global;

/// What a client knows of its session.
#[derive(Clone, Copy, Debug, PartialEq, Eq)]
pub enum Known {
    /// Nothing that it can rely on.
    Open,
    /// The session of this digest is accepted.
    Accepted(Digest),
    /// The session of this digest is aborted.
    Aborted(Digest),
}

/// The line of what a client knows.
pub fn known_line(alloc: Global, known: Known) -> Result<String, Memory>
    ensures { IfOk result (λ line. string_bytes line ≡ known_line known) }
{
    match known {
        Known::Open => Ok(String::from_str(alloc, "open\n")?),
        Known::Accepted(digest) => {
            let text = print_bytes(alloc, digest.as_slice())?;
            Ok(format!(in alloc; "accepted {text}\n")?)
        }
        Known::Aborted(digest) => {
            let text = print_bytes(alloc, digest.as_slice())?;
            Ok(format!(in alloc; "aborted {text}\n")?)
        }
    }
}
