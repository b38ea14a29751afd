//! A transaction that a call file has in place of a call.
ghost use Rattle.std.specs.Prelude.{◌≡◌, IfOk, IfSome, is_some};
ghost use Rattle.cs_base.specs.Fields.{whole_at};
ghost use Rattle.cs_tx_types.specs.Reading.{tx_at};
ghost use Rattle.cs_tx_types.specs.Transaction.{TxFits};
ghost use Rattle.toml.specs.View.{view, table_view};
ghost use Rattle.cs_config.specs.Reading.{FileGives};
ghost use Rattle.cs_config.specs.Given.{lacks, has_no_call, encoded_transaction, transaction_in, number_in};

use crate::error::{ConfigError, FileField};
use crate::fields::{one_at, value_at};
use crate::hex_values::read_hex;
use crate::limits::LAST_NUMBER;
use crate::numbers::within;
use cs_base::{MOST_TX, Memory, Sequence};
use cs_tx::Tx;
use cs_tx_value::{Encoded, FormError};
use std::alloc::Global;
use toml::{Table, Value};

fn lacks(table: &Table, field: FileField) -> bool
    ensures { result ≡ lacks (table_view table.now) field }
{
    value_at(table, field).is_none()
}

// Whether none of a call's fields but its number stands in the table.
fn has_no_call(table: &Table) -> bool
    ensures { result ≡ has_no_call (table_view table.now) }
{
    lacks(table, FileField::Contract)
        && lacks(table, FileField::Method)
        && lacks(table, FileField::Inputs)
        && lacks(table, FileField::Reads)
        && lacks(table, FileField::Args)
}

/// The transaction of which these bytes are the encoding.
pub fn decode_transaction(alloc: Global, bytes: &[u8]) -> Result<Option<Tx>, Memory>
    ensures given { IfOk result (λ tx. tx ≡ whole_at tx_at bytes.now) }
    ensures fits { IfOk result (λ tx. IfSome tx TxFits) }
{
    match Tx::decode(alloc, bytes) {
        Ok(tx) => Ok(Some(tx)),
        Err(FormError::Memory) => Err(Memory),
        Err(FormError::BadForm) => Ok(None),
        Err(FormError::TooLong) => Ok(None),
    }
}

// Whether the bytes are the encoding of a transaction.
fn encodes_transaction(alloc: Global, bytes: &[u8]) -> Result<bool, Memory>
    ensures { IfOk result (λ yes. yes ≡ is_some (whole_at tx_at bytes.now)) }
{
    Ok(decode_transaction(alloc, bytes)?.is_some())
}

fn encoded_transaction(alloc: Global, bytes: Sequence<u8>) -> Result<Sequence<u8>, ConfigError>
    ensures { FileGives result (encoded_transaction bytes) }
{
    if bytes.len() > MOST_TX {
        return Err(ConfigError::Limit(FileField::Transaction));
    }
    if encodes_transaction(alloc, bytes.as_slice())? {
        Ok(bytes)
    } else {
        Err(ConfigError::Field(FileField::Transaction))
    }
}

/// The encoding of a transaction, of which the value is the hex, beside no field of a call.
pub(crate) fn transaction_in(
    alloc: Global,
    table: &Table,
    value: &Value,
) -> Result<Sequence<u8>, ConfigError>
    ensures { FileGives result (transaction_in (view value.now) (table_view table.now)) }
{
    let unread = ConfigError::Field(FileField::Transaction);
    if !has_no_call(table) {
        return Err(unread);
    }
    let Some(text) = value.as_str() else {
        return Err(unread);
    };
    match read_hex(alloc, text)? {
        Some(bytes) => encoded_transaction(alloc, Sequence::from_vec(bytes)),
        None => Err(unread),
    }
}

/// The number that it is submitted under.
pub(crate) fn number_in(alloc: Global, table: &Table) -> Result<u64, ConfigError>
    ensures { FileGives result (number_in (table_view table.now)) }
{
    let number = one_at(alloc, table, FileField::Number)?;
    within(FileField::Number, number, 0, LAST_NUMBER)
}
