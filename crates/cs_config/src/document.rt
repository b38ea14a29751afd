//! The table that a file is.
ghost use Rattle.cs_config.specs.Reading.{GivesTable};

use crate::error::ConfigError;
use std::alloc::Global;
use toml::Table;

/// The table that the bytes are.
pub fn read_table(alloc: Global, bytes: &[u8]) -> Result<Table, ConfigError>
    ensures { GivesTable result bytes.now }
{
    let Ok(text) = str::from_utf8(bytes) else {
        return Err(ConfigError::Toml);
    };
    match toml::table_from_str(alloc, text) {
        Ok(table) => Ok(table),
        Err(error) if error.is_memory() => Err(ConfigError::Memory),
        Err(_) => Err(ConfigError::Toml),
    }
}
