//! What stands in the arrays of a trace: objects, objects under their keys, and numbers of traces.
ghost use Rattle.std.specs.Prelude.{◌≡◌, ℕ, List, Option, codes, IfOk};
ghost use Rattle.toml.specs.Data.{Data, as_str};
ghost use Rattle.toml.specs.View.{view, items_view, table_view};
ghost use Rattle.cs_tx_value.specs.declared.value.Value.{out-Value};
ghost use Rattle.cs_config.specs.Items.{hex_digest, hex_object};
ghost use Rattle.cs_config.specs.Named.{held_at};
ghost use Rattle.cs_config.specs.Reading.{each_item};
ghost use Rattle.cs_transact.specs.Items.{list_of_layer, item_values, spelled_name, spelled_object, stands_alone, table_object, item_object, table_keyed, item_keyed, item_dep, each_in};

use cs_base::{Memory, Sequence};
use cs_config::{Readable, held_under};
use cs_tx_value::{Digest, Name, Object, Value};
use std::alloc::Global;
use toml::Table;

/// What an item of an array says in a trace of a contract.
pub(crate) trait Item: Sized + Drop {
    /// What is read of an item, where it can be read.
    ghost said: { List ℕ → Data → Option Self };

    /// Reads an item; None where it is of another type, or unreadable.
    fn read(alloc: Global, contract: &Digest, value: &toml::Value) -> Result<Option<Self>, Memory>
        ensures { IfOk result (λ read. read ≡ said contract.now (view value.now)) };
}

/// Reads each item; None where one can't be read.
fn read_each<T: Item>(
    alloc: Global,
    contract: &Digest,
    items: &[toml::Value],
) -> Result<Option<Sequence<T>>, Memory>
    ensures { IfOk result (λ read.
        read ≡ each_item (T.said contract.now) (items_view items.now)) }
{
    let mut found = Sequence::new(alloc);
    for item in items {
        let Some(one) = T::read(alloc, contract, item)? else {
            return Ok(None);
        };
        found.push(one)?;
    }
    Ok(Some(found))
}

/// Reads each item of an array.
pub(crate) fn read_array<T: Item>(
    alloc: Global,
    contract: &Digest,
    value: &toml::Value,
) -> Result<Option<Sequence<T>>, Memory>
    ensures { IfOk result (λ read. read ≡ each_in (T.said contract.now) (view value.now)) }
{
    match value.as_array() {
        Some(items) => read_each(alloc, contract, items),
        None => Ok(None),
    }
}

// The items of a value that is a list.
fn list_in(value: Value) -> Option<Sequence<Value>>
    ensures { result ≡ list_of_layer (out-Value value) }
{
    match value {
        Value::List(items) => Some(items),
        Value::Int(_) => None,
        Value::Bool(_) => None,
        Value::Bytes(_) => None,
    }
}

/// The values of an array: integers, booleans, hex digits, arrays.
pub(crate) fn read_values(
    alloc: Global,
    value: &toml::Value,
) -> Result<Option<Sequence<Value>>, Memory>
    ensures { IfOk result (λ read. read ≡ item_values (view value.now)) }
{
    match <Value as Readable>::read(alloc, value)? {
        Some(one) => Ok(list_in(one)),
        None => Ok(None),
    }
}

/// The name that a string is.
pub(crate) fn read_name(alloc: Global, value: &toml::Value) -> Result<Option<Name>, Memory>
    ensures { IfOk result (λ read. read ≡ spelled_name (view value.now)) }
{
    match value.as_str() {
        Some(text) => Ok(Some(Name::from_vec(Vec::from_slice(alloc, text.as_bytes())?))),
        None => Ok(None),
    }
}

fn name_at(alloc: Global, table: &Table, key: &str) -> Result<Option<Name>, Memory>
    ensures { IfOk result (λ read. read ≡ held_at spelled_name key.now (table_view table.now)) }
{
    match held_under(table, key) {
        Some(value) => read_name(alloc, value),
        None => Ok(None),
    }
}

fn values_at(alloc: Global, table: &Table, key: &str) -> Result<Option<Sequence<Value>>, Memory>
    ensures { IfOk result (λ read. read ≡ held_at item_values key.now (table_view table.now)) }
{
    match held_under(table, key) {
        Some(value) => read_values(alloc, value),
        None => Ok(None),
    }
}

// The object of the contract whose type and values a table has.
fn spelled_object(alloc: Global, contract: &Digest, table: &Table) -> Result<Option<Object>, Memory>
    ensures { IfOk result (λ read. read ≡ spelled_object contract.now (table_view table.now)) }
{
    let Some(type_name) = name_at(alloc, table, "type")? else {
        return Ok(None);
    };
    let Some(values) = values_at(alloc, table, "values")? else {
        return Ok(None);
    };
    Ok(Some(Object {
        contract: *contract,
        type_name,
        values,
    }))
}

// Whether neither a type nor values stand in the table.
fn stands_alone(table: &Table) -> bool
    ensures { result ≡ stands_alone (table_view table.now) }
{
    held_under(table, "type").is_none() && held_under(table, "values").is_none()
}

// The object that a table has, as its encoding or by its type and values.
fn table_object(alloc: Global, contract: &Digest, table: &Table) -> Result<Option<Object>, Memory>
    ensures { IfOk result (λ read. read ≡ table_object contract.now (table_view table.now)) }
{
    match held_under(table, "object") {
        Some(value) if stands_alone(table) => <Object as Readable>::read(alloc, value),
        Some(_) => Ok(None),
        None => spelled_object(alloc, contract, table),
    }
}

fn key_at(alloc: Global, table: &Table) -> Result<Option<Digest>, Memory>
    ensures { IfOk result (λ read. read ≡ held_at hex_digest (codes "key") (table_view table.now)) }
{
    match held_under(table, "key") {
        Some(value) => <[u8; 32] as Readable>::read(alloc, value),
        None => Ok(None),
    }
}

// The key that a table has, and its object.
fn table_keyed(
    alloc: Global,
    contract: &Digest,
    table: &Table,
) -> Result<Option<(Digest, Object)>, Memory>
    ensures { IfOk result (λ read. read ≡ table_keyed contract.now (table_view table.now)) }
{
    let Some(key) = key_at(alloc, table)? else {
        return Ok(None);
    };
    let Some(object) = table_object(alloc, contract, table)? else {
        return Ok(None);
    };
    Ok(Some((key, object)))
}

impl Item for Object {
    ghost said = { item_object };

    fn read(
        alloc: Global,
        contract: &Digest,
        value: &toml::Value,
    ) -> Result<Option<Object>, Memory> {
        match value.as_table() {
            Some(table) => table_object(alloc, contract, table),
            None => Ok(None),
        }
    }
}

impl Item for (Digest, Object) {
    ghost said = { item_keyed };

    fn read(
        alloc: Global,
        contract: &Digest,
        value: &toml::Value,
    ) -> Result<Option<(Digest, Object)>, Memory> {
        match value.as_table() {
            Some(table) => table_keyed(alloc, contract, table),
            None => Ok(None),
        }
    }
}

// The number of a trace.
fn item_dep(value: &toml::Value) -> Option<u8>
    ensures { result ≡ item_dep (view value.now) }
{
    let number = value.as_integer()?;
    match u8::try_from(number) {
        Ok(dep) => Some(dep),
        Err(_) => None,
    }
}

impl Item for u8 {
    ghost said = { λ _ held. item_dep held };

    fn read(_alloc: Global, _contract: &Digest, value: &toml::Value) -> Result<Option<u8>, Memory> {
        Ok(item_dep(value))
    }
}
