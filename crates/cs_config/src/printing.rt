//! Printing key files.
ghost use Rattle.std.specs.Prelude.{◌≡◌, ◌≤◌, true, false, Some, IfOk, string_bytes};
ghost use Rattle.hex.specs.Hex.{encode_lower};
ghost use Rattle.toml.specs.Data.{string, array, members_depth, members_have_valid_dates};
ghost use Rattle.toml.specs.Parse.{parse_document};
ghost use Rattle.toml.specs.Text.{IsDocumentText};
ghost use Rattle.toml.specs.View.{view, table_view};
ghost use Rattle.cs_base.specs.NodeId.{is_named, node_text};
ghost use Rattle.cs_config.specs.KeyText.{IsKeyFile, KeysAloneTell};
ghost use Rattle.cs_config.specs.Printed.{peer_data, peers_data, keys_data};

use crate::Site;
use crate::listing::list_with_all;
use cs_base::{Memory, NodeId};
use cs_tx_value::Digest;
use std::alloc::Global;
use toml::{Table, Value};

/// The key file that a master key gives a node or client of the site, with all others as its
/// peers: their keys, and nothing else.
pub fn print_keys(
    alloc: Global,
    site: &Site,
    master: &Digest,
    me: NodeId,
) -> Result<Vec<u8>, Memory>
    requires { is_named site.now.config me ≡ true }
    ensures { IfOk result (λ text. IsKeyFile site.now.config master.now me text.items) }
{
    let list = list_with_all(alloc, &site.config, master, me)?;
    let table = keys_table(alloc, me, list.as_slice())?;
    let text = print_table(alloc, &table)?;
    Ok(text.into_bytes())
}

/// A key file tells of the master key what its keys tell: two master keys that give a name the same
/// keys give it the same file.
///
/// It does nothing: its contract is a theorem, which a caller has by calling it.
pub fn key_files_tell_keys_alone()
    ensures { KeysAloneTell }
{}

// The text of a table that is flat enough to be read again, and holds no date.
fn print_table(alloc: Global, table: &Table) -> Result<String, Memory>
    requires flat { members_depth (table_view table.now) ≤ 3 }
    requires undated { members_have_valid_dates (table_view table.now) ≡ true }
    ensures reads_back { IfOk result (λ text.
        parse_document (string_bytes text) ≡ Some (table_view table.now)) }
    ensures text { IfOk result (λ text.
        IsDocumentText false (table_view table.now) (string_bytes text)) }
{
    match toml::table_to_string(alloc, table) {
        Ok(text) => Ok(text),
        Err(toml::ser::Error::OutOfMemory) => Err(Memory),
        Err(toml::ser::Error::DateInvalid) => unreachable!(),
    }
}

fn hex_value(alloc: Global, key: &Digest) -> Result<Value, Memory>
    ensures { IfOk result (λ value. view value ≡ string (encode_lower key.now)) }
{
    Ok(Value::String(hex::encode(alloc, key.as_slice())?))
}

fn name_value(alloc: Global, name: NodeId) -> Result<Value, Memory>
    ensures { IfOk result (λ value. view value ≡ string (node_text name)) }
{
    Ok(Value::String(format!(in alloc; "{name}")?))
}

fn peer_table(alloc: Global, peer: &(NodeId, Digest, Digest)) -> Result<Table, Memory>
    ensures { IfOk result (λ table. table_view table ≡ peer_data peer.now) }
{
    let mut table = Table::new(alloc);
    table.insert(String::from_str(alloc, "from")?, hex_value(alloc, &peer.2)?)?;
    table.insert(String::from_str(alloc, "name")?, name_value(alloc, peer.0)?)?;
    table.insert(String::from_str(alloc, "to")?, hex_value(alloc, &peer.1)?)?;
    Ok(table)
}

fn peers_value(alloc: Global, list: &[(NodeId, Digest, Digest)]) -> Result<Value, Memory>
    ensures { IfOk result (λ value. view value ≡ array (peers_data list.now)) }
{
    let mut tables = Vec::new(alloc);
    for peer in list {
        tables.push(Value::Table(peer_table(alloc, peer)?))?;
    }
    Ok(Value::Array(tables))
}

fn keys_table(alloc: Global, me: NodeId, list: &[(NodeId, Digest, Digest)]) -> Result<Table, Memory>
    ensures { IfOk result (λ table. table_view table ≡ keys_data me list.now) }
{
    let mut table = Table::new(alloc);
    table.insert(String::from_str(alloc, "me")?, name_value(alloc, me)?)?;
    table.insert(String::from_str(alloc, "peers")?, peers_value(alloc, list)?)?;
    Ok(table)
}
