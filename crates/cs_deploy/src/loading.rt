//! Loading the file of a name, and refusing it.
ghost use Rattle.std.specs.Prelude.{◌≡◌, IsErrAnd};
ghost use Rattle.cs_base.specs.Outside.{HasCause};
ghost use Rattle.cs_io.specs.Told.{Stays};
ghost use Rattle.cs_deploy.specs.declared.cause.Cause.TheVariants.{Fault};
ghost use Rattle.cs_deploy.specs.Taking.{IsStoreFault, TakesFiles, FilesCome, bytes_taken, cause_of_config};
ghost use Rattle.cs_deploy.specs.Refusing.{Refuses};

use crate::cause::{Cause, Untaken};
use cs_base::Sequence;
use cs_config::ConfigError;
use cs_io::{Loaded, Store, Text};
use std::alloc::Global;

/// The most bytes of a file, 16 MiB: so many genesis objects as a site may have find room in them.
pub const MOST_FILE: usize = 16_777_216;

/// The content of the file of this name.
pub fn load<E: Store>(alloc: Global, store: &mut E, name: &str) -> Result<Sequence<u8>, Untaken>
    ensures taken { TakesFiles (FilesCome (bytes_taken name.now)) (E.files store.old) result }
    ensures kept { Stays (E.files store.old) (E.files store.new) }
    ensures cause { HasCause (E.faults store.old) (E.faults store.new) (IsErrAnd result IsStoreFault) }
{
    let mut bytes = Vec::new(alloc);
    match store.load(name, MOST_FILE, &mut bytes) {
        Loaded::Done => Ok(Sequence::from_vec(bytes)),
        Loaded::Absent => Err(refused(alloc, name, Cause::Absent)),
        Loaded::TooLong => Err(refused(alloc, name, Cause::TooLong)),
        Loaded::Failed => Err(refused(alloc, name, Cause::Fault)),
        Loaded::Memory => Err(Untaken::Memory),
    }
}

/// That the file of this name isn't taken.
pub fn refused(alloc: Global, name: &str, cause: Cause) -> Untaken
    ensures told { Refuses name.now cause result }
    ensures fault { IsStoreFault result → cause ≡ Fault }
{
    match String::from_str(alloc, name) {
        Ok(text) => Untaken::Refused(Text::from_string(text), cause),
        Err(_) => Untaken::Memory,
    }
}

/// That the file of this name can't be read.
pub fn unread(alloc: Global, name: &str, error: ConfigError) -> Untaken
    ensures told { Refuses name.now (cause_of_config error) result }
    ensures fault { IsStoreFault result → ⊥ }
{
    match error {
        ConfigError::Toml => refused(alloc, name, Cause::Toml),
        ConfigError::Field(field) => refused(alloc, name, Cause::Field(field)),
        ConfigError::Limit(field) => refused(alloc, name, Cause::Limit(field)),
        ConfigError::Memory => Untaken::Memory,
    }
}
