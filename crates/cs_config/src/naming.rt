//! The names of key files.
ghost use Rattle.std.specs.Prelude.{◌≡◌, IfOk, string_bytes};
ghost use Rattle.cs_config.specs.FileNames.{key_file};

use cs_base::{Memory, NodeId};
use std::alloc::Global;

/// The name of the key file of a node or client, `keys-S.I.toml` or `keys-c.N.toml`.
pub fn key_file(alloc: Global, me: NodeId) -> Result<String, Memory>
    ensures { IfOk result (λ name. string_bytes name ≡ key_file me) }
{
    Ok(format!(in alloc; "keys-{me}.toml")?)
}
