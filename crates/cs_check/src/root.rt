//! The root over the records of a table.
ghost use Rattle.std.specs.Prelude.{◌≡◌, IfOk};
ghost use Rattle.cs_tx_types.specs.Record.{stored_encoding};
ghost use Rattle.cs_merkle.specs.Tree.{leaves_of_vectors};
ghost use Rattle.cs_table.specs.Seen.{IsStored, AllStored, seen};
ghost use Rattle.cs_check_rules.specs.Keys.{AreKnown};
ghost use Rattle.cs_check_rules.specs.Root.{root_under};
ghost use Rattle.cs_check.specs.Root.{record_leaves, keys_in, table_root as root_of};

use crate::fitting::stored_fits;
use cs_base::{Key, Memory, Writer};
use cs_merkle::root;
use cs_table::{Record, Records, Table};
use cs_tx::{Digest, Encoded};
use std::alloc::Global;

/// The encoding of a record behind that of its key.
pub(crate) fn record_leaf(alloc: Global, key: &Key, row: &Record) -> Result<Vec<u8>, Memory>
    requires { IsStored row.now }
    ensures { IfOk result (λ leaf.
        leaf.items ≡ stored_encoding (record { key = key.now; value = row.now })) }
{
    stored_fits(key, row);
    let mut out = Writer::new(alloc);
    key.encode(&mut out)?;
    row.encode(&mut out)?;
    Ok(out.into_bytes())
}

fn record_leaves(alloc: Global, rows: Records<'_>) -> Result<Vec<Vec<u8>>, Memory>
    requires { AllStored rows }
    ensures { IfOk result (λ leaves. leaves_of_vectors leaves.items ≡ record_leaves rows.entry) }
{
    let mut leaves = Vec::new(alloc);
    for (key, row) in rows {
        leaves.push(record_leaf(alloc, key, row)?)?;
    }
    Ok(leaves)
}

/// What is stored is what the table knows something of, and the root over it is the one over what
/// the table shows.
pub fn root_is_shown(table: &Table)
    ensures keys { AreKnown (keys_in table.now.rows) (seen table.now) }
    ensures root { root_of table.now.rows ≡ root_under (keys_in table.now.rows) (seen table.now) }
{
    let _records = table.records();
}

/// The Merkle tree hash over the encodings of all records, in the order of their encoded keys. It
/// takes memory and time in proportion to these.
pub fn table_root(alloc: Global, table: &Table) -> Result<Digest, Memory>
    ensures { IfOk result (λ root. root ≡ root_of table.now.rows) }
{
    let leaves = record_leaves(alloc, table.records())?;
    Ok(root(leaves.as_slice()))
}
