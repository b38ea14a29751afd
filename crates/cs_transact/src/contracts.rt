//! The contracts of traces, by id or by name.
ghost use Rattle.std.specs.Prelude.{◌≡◌, IfOk};
ghost use Rattle.toml.specs.View.{view};
ghost use Rattle.cs_transact.specs.ContractNames.{contract_named};

use cs_base::Memory;
use cs_config::Readable;
use cs_native::{Hashlock, Rule, Signed, Sum};
use cs_tx::id_of_token;
use cs_tx_value::Digest;
use std::alloc::Global;
use toml::Value;

/// The id of the contract that a value names: 64 hex digits, or the name of `token` or of a rule.
pub(crate) fn read_contract(alloc: Global, value: &Value) -> Result<Option<Digest>, Memory>
    ensures { IfOk result (λ read. read ≡ contract_named (view value.now)) }
{
    let Some(text) = value.as_str() else {
        return Ok(None);
    };
    match text {
        "token" => Ok(Some(id_of_token())),
        "hashlock" => Ok(Some(Hashlock.id())),
        "sum" => Ok(Some(Sum.id())),
        "signed" => Ok(Some(Signed.id())),
        _ => <[u8; 32] as Readable>::read(alloc, value),
    }
}
