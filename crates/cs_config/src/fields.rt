//! The fields of a file.
ghost use Rattle.std.specs.Prelude.{◌≡◌, IfOk, option_map};
ghost use Rattle.std.specs.List.{AllByRecursion};
ghost use Rattle.toml.specs.Data.{get_member};
ghost use Rattle.toml.specs.View.{view, table_view};
ghost use Rattle.cs_config.specs.Names.{field_name};
ghost use Rattle.cs_config.specs.Reading.{FileGives, one_of, each_of};

use crate::error::{ConfigError, FileField};
use crate::readable::{Readable, read_each};
use cs_base::Sequence;
use std::alloc::Global;
use toml::{Table, Value};

/// What a table holds under a key.
pub fn held_under<'a>(table: &'a Table, key: &str) -> Option<&'a Value>
    ensures { option_map (λ v. view v.now) result ≡ get_member key.now (table_view table.now) }
{
    table.get(key)
}

/// What a table holds of the field.
pub(crate) fn value_at(table: &Table, field: FileField) -> Option<&Value>
    ensures { option_map (λ v. view v.now) result
        ≡ get_member (field_name field) (table_view table.now) }
{
    held_under(table, field.name())
}

/// What the field says.
pub fn one_at<T: Readable>(alloc: Global, table: &Table, field: FileField) -> Result<T, ConfigError>
    ensures given { FileGives result (one_of T.meaning field (table_view table.now)) }
    ensures fits { IfOk result T.Fits }
{
    let Some(value) = value_at(table, field) else {
        return Err(ConfigError::Field(field));
    };
    match T::read(alloc, value)? {
        Some(one) => Ok(one),
        None => Err(ConfigError::Field(field)),
    }
}

/// What each item of the field's array says.
pub fn each_at<T: Readable>(
    alloc: Global,
    table: &Table,
    field: FileField,
) -> Result<Sequence<T>, ConfigError>
    ensures given { FileGives result (each_of T.meaning field (table_view table.now)) }
    ensures fits { IfOk result (AllByRecursion T.Fits) }
{
    let Some(value) = value_at(table, field) else {
        return Err(ConfigError::Field(field));
    };
    let Some(items) = value.as_array() else {
        return Err(ConfigError::Field(field));
    };
    match read_each(alloc, items)? {
        Some(all) => Ok(all),
        None => Err(ConfigError::Field(field)),
    }
}
