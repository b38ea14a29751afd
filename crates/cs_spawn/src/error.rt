//! Why a cluster isn't run to its end.
ghost use Rattle.std.specs.Prelude.{◌≡◌};

use cs_base::Memory;

/// Why a cluster isn't run to its end.
#[derive(Clone, Copy, Debug, PartialEq, Eq)]
pub enum ClusterError {
    /// A child couldn't be started, or waited for.
    SpawnFault,
    /// A line couldn't be written.
    WriteFault,
    /// There was not enough memory.
    Memory,
}

impl From<Memory> for ClusterError {
    ghost use Rattle.cs_spawn.specs.declared.error.ClusterError.TheVariants.{Memory as NoMemory};

    ghost from_gives = { λ _ e. e ≡ NoMemory };

    fn from(_e: Memory) -> ClusterError {
        ClusterError::Memory
    }
}
