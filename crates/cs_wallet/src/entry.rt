//! The used numbers, as they stand in the file.
ghost use Rattle.std.specs.Prelude.{◌≡◌, codes, IfOk};
ghost use Rattle.toml.specs.Data.{as_integer};
ghost use Rattle.toml.specs.View.{view, items_view, table_view};
ghost use Rattle.cs_config.specs.Reading.{each_item};
ghost use Rattle.cs_config.specs.Items.{hex_digest};
ghost use Rattle.cs_config.specs.Named.{held_at};
ghost use Rattle.cs_wallet.specs.File.{entry_at, entry_in};

use cs_base::{Memory, Sequence};
use cs_config::{Readable, held_under};
use cs_onetime::Digest;
use std::alloc::Global;
use toml::{Table, Value};

/// A number of any sign, and the message that it has signed.
#[derive(Drop)]
pub struct Entry {
    pub number: i64,
    pub message: Digest,
}

/// The digest that a table holds under a key, as hex.
pub(crate) fn digest_at(alloc: Global, table: &Table, key: &str) -> Result<Option<Digest>, Memory>
    ensures { IfOk result (λ held. held ≡ held_at hex_digest key.now (table_view table.now)) }
{
    match held_under(table, key) {
        Some(value) => <[u8; 32] as Readable>::read(alloc, value),
        None => Ok(None),
    }
}

fn number_at(table: &Table) -> Option<i64>
    ensures { result ≡ held_at as_integer (codes "number") (table_view table.now) }
{
    match held_under(table, "number") {
        Some(value) => value.as_integer(),
        None => None,
    }
}

fn read_entry(alloc: Global, table: &Table) -> Result<Option<Entry>, Memory>
    ensures { IfOk result (λ entry. entry ≡ entry_at (table_view table.now)) }
{
    let Some(number) = number_at(table) else {
        return Ok(None);
    };
    let Some(message) = digest_at(alloc, table, "message")? else {
        return Ok(None);
    };
    Ok(Some(Entry { number, message }))
}

fn entry_in(alloc: Global, value: &Value) -> Result<Option<Entry>, Memory>
    ensures { IfOk result (λ entry. entry ≡ entry_in (view value.now)) }
{
    match value.as_table() {
        Some(table) => read_entry(alloc, table),
        None => Ok(None),
    }
}

/// Reads each item; None where one can't be read.
pub(crate) fn read_entries(
    alloc: Global,
    items: &[Value],
) -> Result<Option<Sequence<Entry>>, Memory>
    ensures { IfOk result (λ all. all ≡ each_item entry_in (items_view items.now)) }
{
    let mut found = Sequence::new(alloc);
    for item in items {
        let Some(entry) = entry_in(alloc, item)? else {
            return Ok(None);
        };
        found.push(entry)?;
    }
    Ok(Some(found))
}
