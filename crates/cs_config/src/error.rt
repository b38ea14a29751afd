//! Why a file is refused.
ghost use Rattle.std.specs.Prelude.{◌≡◌};
ghost use Rattle.cs_config.specs.Names.{field_name};
ghost use Rattle.cs_config.specs.declared.error.ConfigError.TheVariants.{Memory as NoMemory};

use cs_base::Memory;

/// A field of a file.
#[derive(Clone, Copy, Debug, PartialEq, Eq)]
pub enum FileField {
    Shards,
    Faulty,
    Dummies,
    BasePort,
    Contracts,
    Genesis,
    Me,
    Peers,
    Contract,
    Method,
    Inputs,
    Reads,
    Args,
    Number,
    Site,
    Master,
    Turns,
    Calls,
    Hosts,
    Tick,
    Transaction,
}

/// Why a file gave nothing. A field that is missing, of another type or unreadable is told before
/// one that is out of its range; of several the first in the order of the file's format.
#[derive(Clone, Copy, Debug, PartialEq, Eq)]
pub enum ConfigError {
    /// The bytes are no TOML.
    Toml,
    /// The field is missing, of another type, or unreadable.
    Field(FileField),
    /// The field is out of its range.
    Limit(FileField),
    /// There was not enough memory.
    Memory,
}

impl FileField {
    /// The key under which the field stands.
    pub fn name(self) -> &'static str
        ensures { result.now ≡ field_name self }
    {
        match self {
            FileField::Shards => "shards",
            FileField::Faulty => "faulty",
            FileField::Dummies => "dummies",
            FileField::BasePort => "base_port",
            FileField::Contracts => "contracts",
            FileField::Genesis => "genesis",
            FileField::Me => "me",
            FileField::Peers => "peers",
            FileField::Contract => "contract",
            FileField::Method => "method",
            FileField::Inputs => "inputs",
            FileField::Reads => "reads",
            FileField::Args => "args",
            FileField::Number => "number",
            FileField::Site => "site",
            FileField::Master => "master",
            FileField::Turns => "turns",
            FileField::Calls => "calls",
            FileField::Hosts => "hosts",
            FileField::Tick => "tick",
            FileField::Transaction => "transaction",
        }
    }
}

impl From<Memory> for ConfigError {
    ghost from_gives = { λ _ e. e ≡ NoMemory };

    fn from(_: Memory) -> ConfigError {
        ConfigError::Memory
    }
}
