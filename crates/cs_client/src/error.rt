//! Why a client ends.
ghost use Rattle.std.specs.Prelude.{◌≡◌};
ghost use Rattle.cs_client.specs.declared.error.ClientError.TheVariants.{Memory as NoMemory};
ghost use Rattle.cs_client.specs.Endings.{ending_of};

use cs_base::Memory;
use cs_proc::ProcError;
use std::alloc::AllocFailed;

/// Why a client ends without an answer.
#[derive(Clone, Copy, Debug, PartialEq, Eq)]
pub enum ClientError {
    /// The method isn't run, for this cause.
    Refused(ProcError),
    /// There was not enough memory.
    Memory,
}

/// How a client ends whose method gave no transaction.
pub fn ending_of(cause: ProcError) -> ClientError
    ensures { result ≡ ending_of cause }
{
    match cause {
        ProcError::Memory => ClientError::Memory,
        ProcError::NoMethod
        | ProcError::BadArgs
        | ProcError::Trap(_)
        | ProcError::TooLarge
        | ProcError::CheckerNo(_) => ClientError::Refused(cause),
    }
}

impl From<Memory> for ClientError {
    ghost from_gives = { λ _ e. e ≡ NoMemory };

    fn from(_e: Memory) -> ClientError {
        ClientError::Memory
    }
}

impl<T: Drop> From<AllocFailed<T>> for ClientError {
    ghost from_gives = { λ _ e. e ≡ NoMemory };

    fn from(_e: AllocFailed<T>) -> ClientError {
        ClientError::Memory
    }
}
