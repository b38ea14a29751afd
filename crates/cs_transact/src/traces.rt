//! Traces, read of their tables.
ghost use Rattle.std.specs.Prelude.{◌≡◌, length, map, IfOk, option_map};
ghost use Rattle.std.specs.List.{list_all};
ghost use Rattle.toml.specs.Data.{get_member};
ghost use Rattle.toml.specs.View.{view, table_view};
ghost use Rattle.cs_transact.specs.ContractNames.{contract_named};
ghost use Rattle.cs_transact.specs.Items.{each_in, item_values, spelled_name};
ghost use Rattle.cs_transact.specs.Lines.{field_word};
ghost use Rattle.cs_transact.specs.Refusing.{ReadsAs};
ghost use Rattle.cs_transact.specs.Reading.{said_at, spelled_trace, is_table, trace_in, traces_from};
ghost use Rattle.cs_transact.specs.declared.refusal.TraceField.TheVariants as field;

use crate::contracts::read_contract;
use crate::items::{Item, read_array, read_name, read_values};
use crate::refusal::{Refusal, TextError, TraceField};
use cs_base::Sequence;
use cs_config::held_under;
use cs_tx_types::Trace;
use cs_tx_value::{Digest, Name, Value};
use std::alloc::Global;
use toml::Table;

// What a table holds of the field.
fn value_at(table: &Table, which: TraceField) -> Option<&toml::Value>
    ensures { option_map (λ v. view v.now) result
        ≡ get_member (field_word which) (table_view table.now) }
{
    held_under(table, which.name())
}

fn contract_at(alloc: Global, number: usize, table: &Table) -> Result<Digest, TextError>
    ensures { ReadsAs result (said_at contract_named number field.Contract (table_view table.now)) }
{
    let unread = TextError::Refused(Refusal::Field(number, TraceField::Contract));
    let Some(value) = value_at(table, TraceField::Contract) else {
        return Err(unread);
    };
    match read_contract(alloc, value)? {
        Some(contract) => Ok(contract),
        None => Err(unread),
    }
}

fn method_at(alloc: Global, number: usize, table: &Table) -> Result<Name, TextError>
    ensures { ReadsAs result (said_at spelled_name number field.Method (table_view table.now)) }
{
    let unread = TextError::Refused(Refusal::Field(number, TraceField::Method));
    let Some(value) = value_at(table, TraceField::Method) else {
        return Err(unread);
    };
    match read_name(alloc, value)? {
        Some(method) => Ok(method),
        None => Err(unread),
    }
}

fn values_at(
    alloc: Global,
    number: usize,
    table: &Table,
    which: TraceField,
) -> Result<Sequence<Value>, TextError>
    ensures { ReadsAs result (said_at item_values number which (table_view table.now)) }
{
    let unread = TextError::Refused(Refusal::Field(number, which));
    let Some(value) = value_at(table, which) else {
        return Err(unread);
    };
    match read_values(alloc, value)? {
        Some(values) => Ok(values),
        None => Err(unread),
    }
}

// What each item of the field's array says.
fn each_at<T: Item>(
    alloc: Global,
    number: usize,
    contract: &Digest,
    table: &Table,
    which: TraceField,
) -> Result<Sequence<T>, TextError>
    ensures { ReadsAs result
        (said_at (each_in (T.said contract.now)) number which (table_view table.now)) }
{
    let unread = TextError::Refused(Refusal::Field(number, which));
    let Some(value) = value_at(table, which) else {
        return Err(unread);
    };
    match read_array(alloc, contract, value)? {
        Some(items) => Ok(items),
        None => Err(unread),
    }
}

// The trace of a table, which has this number.
fn spelled_trace(alloc: Global, number: usize, table: &Table) -> Result<Trace, TextError>
    ensures { ReadsAs result (spelled_trace number (table_view table.now)) }
{
    let contract = contract_at(alloc, number, table)?;
    let method = method_at(alloc, number, table)?;
    let inputs = each_at(alloc, number, &contract, table, TraceField::Inputs)?;
    let references = each_at(alloc, number, &contract, table, TraceField::References)?;
    let outputs = each_at(alloc, number, &contract, table, TraceField::Outputs)?;
    let parameters = values_at(alloc, number, table, TraceField::Parameters)?;
    let returns = values_at(alloc, number, table, TraceField::Returns)?;
    let deps = each_at(alloc, number, &contract, table, TraceField::Deps)?;
    Ok(Trace {
        contract,
        method,
        inputs,
        references,
        parameters,
        outputs,
        returns,
        deps,
    })
}

fn is_table(value: &toml::Value) -> bool
    ensures { result ≡ is_table (view value.now) }
{
    value.as_table().is_some()
}

/// Whether each of the items is a table.
pub(crate) fn are_tables(items: &[toml::Value]) -> bool
    ensures { result ≡ list_all is_table (map view items.now) }
{
    for item in items {
        if !is_table(item) {
            return false;
        }
    }
    true
}

fn trace_in(alloc: Global, number: usize, value: &toml::Value) -> Result<Trace, TextError>
    ensures { ReadsAs result (trace_in number (view value.now)) }
{
    match value.as_table() {
        Some(table) => spelled_trace(alloc, number, table),
        None => Err(TextError::Refused(Refusal::Traces)),
    }
}

/// The traces of tables, of which the first has the number 0.
pub(crate) fn read_traces(
    alloc: Global,
    items: &[toml::Value],
) -> Result<Sequence<Trace>, TextError>
    ensures given { ReadsAs result (traces_from 0 (map view items.now)) }
    ensures count { IfOk result (λ traces. length traces ≡ length items.now) }
{
    let mut traces = Sequence::new(alloc);
    for (number, item) in items.iter().enumerate() {
        let trace = trace_in(alloc, number, item)?;
        traces.push(trace)?;
    }
    Ok(traces)
}
