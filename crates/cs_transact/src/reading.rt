//! The transaction of a text.
ghost use Rattle.std.specs.Prelude.{map, IfOk};
ghost use Rattle.toml.specs.View.{view, items_view, table_view};
ghost use Rattle.cs_tx_types.specs.Transaction.{TxFits};
ghost use Rattle.cs_transact.specs.Refusing.{Unless, ReadsAs};
ghost use Rattle.cs_transact.specs.Reading.{GivesDocument, some_traces, traces_of_items, traces_in};
ghost use Rattle.cs_transact.specs.Says.{IsFew, TextSays};

use crate::fitting::fitting;
use crate::refusal::{Refusal, TextError};
use crate::traces::{are_tables, read_traces};
use cs_base::Sequence;
use cs_config::{ConfigError, held_under, read_table};
use cs_tx_types::{MOST_TRACES, Trace, Tx};
use std::alloc::Global;
use toml::{Table, Value};

/// The transaction that a text says.
pub fn read_transaction(alloc: Global, bytes: &[u8]) -> Result<Tx, TextError>
    ensures says { Unless (TextSays bytes.now) result }
    ensures fits { IfOk result TxFits }
{
    let table = table_of(alloc, bytes)?;
    let traces = traces_in(alloc, &table)?;
    fitting(alloc, traces)
}

fn table_of(alloc: Global, bytes: &[u8]) -> Result<Table, TextError>
    ensures { GivesDocument result bytes.now }
{
    match read_table(alloc, bytes) {
        Ok(table) => Ok(table),
        Err(ConfigError::Memory) => Err(TextError::Memory),
        Err(_) => Err(TextError::Refused(Refusal::Toml)),
    }
}

// The traces of the items of an array, of which there are one to 16.
fn some_traces(alloc: Global, items: &[Value]) -> Result<Sequence<Trace>, TextError>
    ensures given { ReadsAs result (some_traces (map view items.now)) }
    ensures few { IfOk result IsFew }
{
    if items.is_empty() || items.len() > MOST_TRACES as usize {
        return Err(TextError::Refused(Refusal::Many));
    }
    read_traces(alloc, items)
}

// The traces of the items of an array, all of which are tables.
fn traces_of(alloc: Global, items: &[Value]) -> Result<Sequence<Trace>, TextError>
    ensures given { ReadsAs result (traces_of_items (items_view items.now)) }
    ensures few { IfOk result IsFew }
{
    if are_tables(items) {
        some_traces(alloc, items)
    } else {
        Err(TextError::Refused(Refusal::Traces))
    }
}

fn traces_in(alloc: Global, table: &Table) -> Result<Sequence<Trace>, TextError>
    ensures given { ReadsAs result (traces_in (table_view table.now)) }
    ensures few { IfOk result IsFew }
{
    let Some(value) = held_under(table, "traces") else {
        return Err(TextError::Refused(Refusal::Traces));
    };
    match value.as_array() {
        Some(items) => traces_of(alloc, items),
        None => Err(TextError::Refused(Refusal::Traces)),
    }
}
