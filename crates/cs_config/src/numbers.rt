//! Numbers of a file, and their ranges.
ghost use Rattle.std.specs.Prelude.{◌≡◌, ◌≤◌, ◌<◌, ◌^◌, IfOk, length};
ghost use Rattle.cs_config.specs.Reading.{number_between, few_of};

use crate::error::{ConfigError, FileField};
use cs_base::Sequence;

/// The number, from the least to the most.
pub fn within(field: FileField, value: i64, least: u64, most: u64) -> Result<u64, ConfigError>
    ensures given { result ≡ number_between field least most value }
    ensures low { IfOk result (λ number. least ≤ number) }
    ensures high { IfOk result (λ number. number ≤ most) }
{
    match u64::try_from(value) {
        Ok(number) if least <= number && number <= most => Ok(number),
        _ => Err(ConfigError::Limit(field)),
    }
}

/// The items, no more than so many.
pub fn few<T: Drop>(
    field: FileField,
    items: Sequence<T>,
    most: usize,
) -> Result<Sequence<T>, ConfigError>
    ensures { result ≡ few_of field most items }
{
    if items.len() > most {
        return Err(ConfigError::Limit(field));
    }
    Ok(items)
}
