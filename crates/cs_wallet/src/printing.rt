//! Printing a wallet's file.
ghost use Rattle.std.specs.Prelude.{◌≡◌, ◌≤◌, true, Some, Ok, IfOk, string_bytes};
ghost use Rattle.hex.specs.Hex.{encode_lower};
ghost use Rattle.toml.specs.Data.{string, array, members_depth, members_have_valid_dates};
ghost use Rattle.toml.specs.Parse.{parse_document};
ghost use Rattle.toml.specs.View.{view, table_view};
ghost use Rattle.cs_wallet.specs.File.{wallet_of};
ghost use Rattle.cs_wallet.specs.Fitting.{WalletFits, SignedFits, AllSignedFit};
ghost use Rattle.cs_wallet.specs.Printed.{signed_data, used_data, wallet_data};

use cs_base::Memory;
use cs_onetime::{Digest, Wallet};
use std::alloc::Global;
use toml::{Table, Value};

/// The file of a wallet, from which just that wallet is read again.
pub fn print_wallet(alloc: Global, wallet: &Wallet) -> Result<Vec<u8>, Memory>
    requires { WalletFits wallet.now }
    ensures { IfOk result (λ text. wallet_of text.items ≡ Ok wallet.now) }
{
    let table = wallet_table(alloc, wallet)?;
    let text = print_table(alloc, &table)?;
    Ok(text.into_bytes())
}

// The text of a table that is flat enough to be read again, and holds no date.
fn print_table(alloc: Global, table: &Table) -> Result<String, Memory>
    requires flat { members_depth (table_view table.now) ≤ 3 }
    requires undated { members_have_valid_dates (table_view table.now) ≡ true }
    ensures { IfOk result (λ text.
        parse_document (string_bytes text) ≡ Some (table_view table.now)) }
{
    match toml::table_to_string(alloc, table) {
        Ok(text) => Ok(text),
        Err(toml::ser::Error::OutOfMemory) => Err(Memory),
        Err(toml::ser::Error::DateInvalid) => unreachable!(),
    }
}

fn hex_value(alloc: Global, digest: &Digest) -> Result<Value, Memory>
    ensures { IfOk result (λ value. view value ≡ string (encode_lower digest.now)) }
{
    Ok(Value::String(hex::encode(alloc, digest.as_slice())?))
}

fn signed_table(alloc: Global, signed: &(u64, Digest)) -> Result<Table, Memory>
    requires { SignedFits signed.now }
    ensures { IfOk result (λ table. table_view table ≡ signed_data signed.now) }
{
    let mut table = Table::new(alloc);
    let message = hex_value(alloc, &signed.1)?;
    table.insert(String::from_str(alloc, "message")?, message)?;
    let number = Value::Integer(signed.0 as i64);
    table.insert(String::from_str(alloc, "number")?, number)?;
    Ok(table)
}

fn used_value(alloc: Global, used: &[(u64, Digest)]) -> Result<Value, Memory>
    requires { AllSignedFit used.now }
    ensures { IfOk result (λ value. view value ≡ array (used_data used.now)) }
{
    let mut tables = Vec::new(alloc);
    for signed in used {
        tables.push(Value::Table(signed_table(alloc, signed)?))?;
    }
    Ok(Value::Array(tables))
}

fn wallet_table(alloc: Global, wallet: &Wallet) -> Result<Table, Memory>
    requires { WalletFits wallet.now }
    ensures { IfOk result (λ table. table_view table ≡ wallet_data wallet.now) }
{
    let mut table = Table::new(alloc);
    let seed = hex_value(alloc, &wallet.seed)?;
    table.insert(String::from_str(alloc, "seed")?, seed)?;
    let used = used_value(alloc, wallet.used.as_slice())?;
    table.insert(String::from_str(alloc, "used")?, used)?;
    Ok(table)
}
