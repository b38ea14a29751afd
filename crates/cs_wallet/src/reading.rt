//! Reading a wallet's file.
ghost use Rattle.std.specs.Prelude.{◌≡◌, true, codes, IfOk};
ghost use Rattle.toml.specs.View.{view, table_view};
ghost use Rattle.cs_config.specs.Printed.{IsDigest};
ghost use Rattle.cs_config.specs.Named.{held_at};
ghost use Rattle.cs_wallet.specs.File.{FileGives, GivesMembers, seed_in, all_in, entries_in, are_apart, wallet_of};
ghost use Rattle.cs_wallet.specs.Fitting.{WalletFits};

use crate::entry::{Entry, digest_at, read_entries};
use crate::error::FileError;
use crate::ranges::{are_apart, used_of};
use cs_base::{Memory, Sequence};
use cs_config::{ConfigError, held_under, read_table};
use cs_onetime::{Digest, Wallet};
use std::alloc::Global;
use toml::{Table, Value};

/// The wallet that a file holds.
pub fn read_wallet(alloc: Global, bytes: &[u8]) -> Result<Wallet, FileError>
    ensures given { FileGives result (wallet_of bytes.now) }
    ensures fits { IfOk result WalletFits }
{
    let table = table_of(alloc, bytes)?;
    let seed = seed_in(alloc, &table)?;
    let entries = entries_in(alloc, &table)?;
    let used = used_of(alloc, entries.as_slice())?;
    Ok(Wallet { seed, used })
}

fn table_of(alloc: Global, bytes: &[u8]) -> Result<Table, FileError>
    ensures { GivesMembers result bytes.now }
{
    match read_table(alloc, bytes) {
        Ok(table) => Ok(table),
        Err(ConfigError::Memory) => Err(FileError::Memory),
        Err(_) => Err(FileError::Toml),
    }
}

fn seed_in(alloc: Global, table: &Table) -> Result<Digest, FileError>
    ensures given { FileGives result (seed_in (table_view table.now)) }
    ensures fits { IfOk result IsDigest }
{
    match digest_at(alloc, table, "seed")? {
        Some(seed) => Ok(seed),
        None => Err(FileError::Seed),
    }
}

fn all_in(alloc: Global, value: &Value) -> Result<Option<Sequence<Entry>>, Memory>
    ensures { IfOk result (λ all. all ≡ all_in (view value.now)) }
{
    match value.as_array() {
        Some(items) => read_entries(alloc, items),
        None => Ok(None),
    }
}

fn all_at(alloc: Global, table: &Table) -> Result<Option<Sequence<Entry>>, Memory>
    ensures { IfOk result (λ all. all ≡ held_at all_in (codes "used") (table_view table.now)) }
{
    match held_under(table, "used") {
        Some(value) => all_in(alloc, value),
        None => Ok(None),
    }
}

fn entries_in(alloc: Global, table: &Table) -> Result<Sequence<Entry>, FileError>
    ensures given { FileGives result (entries_in (table_view table.now)) }
    ensures apart { IfOk result (λ entries. are_apart entries ≡ true) }
{
    match all_at(alloc, table)? {
        Some(entries) if are_apart(entries.as_slice()) => Ok(entries),
        _ => Err(FileError::Used),
    }
}
