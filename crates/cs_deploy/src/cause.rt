//! Why a file isn't taken.
ghost use Rattle.std.specs.Prelude.{◌≡◌, IfOk, string_bytes};
ghost use Rattle.cs_deploy.specs.declared.cause.Untaken.TheVariants.{Memory as NoMemory};
ghost use Rattle.cs_deploy.specs.Causes.{refusal_line};

use cs_base::Memory;
use cs_config::FileField;
use cs_io::Text;
use std::alloc::Global;

/// Why a file isn't taken.
#[derive(Clone, Copy, Debug, PartialEq, Eq)]
pub enum Cause {
    /// The store failed.
    Fault,
    /// There is no file of this name.
    Absent,
    /// It has more than `MOST_FILE` bytes.
    TooLong,
    /// Its bytes are no TOML.
    Toml,
    /// This field is missing, of another type, or unreadable.
    Field(FileField),
    /// This field is out of its range.
    Limit(FileField),
    /// It is no contract that is accepted.
    Contract,
    /// Two of its genesis objects have one key.
    Key,
    /// It is no journal of the node.
    Journal,
}

/// That the file of a name isn't taken, and why, unless memory ran out.
#[derive(Drop)]
pub enum Untaken {
    Refused(Text, Cause),
    Memory,
}

impl From<Memory> for Untaken {
    ghost from_gives = { λ _ e. e ≡ NoMemory };

    fn from(_: Memory) -> Untaken {
        Untaken::Memory
    }
}

/// The line of a file that isn't taken.
pub fn refusal_line(alloc: Global, name: &str, cause: Cause) -> Result<String, Memory>
    ensures { IfOk result (λ line. string_bytes line ≡ refusal_line name.now cause) }
{
    let line = match cause {
        Cause::Fault => format!(in alloc; "store {name} fault\n")?,
        Cause::Absent => format!(in alloc; "store {name} absent\n")?,
        Cause::TooLong => format!(in alloc; "store {name} long\n")?,
        Cause::Toml => format!(in alloc; "store {name} toml\n")?,
        Cause::Field(field) => format!(in alloc; "store {name} field {}\n", field.name())?,
        Cause::Limit(field) => format!(in alloc; "store {name} limit {}\n", field.name())?,
        Cause::Contract => format!(in alloc; "store {name} contract\n")?,
        Cause::Key => format!(in alloc; "store {name} key\n")?,
        Cause::Journal => format!(in alloc; "store {name} journal\n")?,
    };
    Ok(line)
}
