//! Starting a child, waiting for one, and telling those that are left to end.
ghost use Rattle.std.specs.Prelude.{◌≡◌, ◌≢◌, ◌<◌, ◌≤◌, ◌==◌, ℕ, false, not, filter, List, [], ◌∷◌, Option, IfOk, IfErr, map, string_bytes, IsErrOf};
ghost use Rattle.std.specs.List.{AllByRecursion};
ghost use Rattle.cs_base.specs.Outside.{HasCause};
ghost use Rattle.cs_io.specs.Told.{Stays};
ghost use Rattle.cs_io.specs.Spawner.{EndsThese};
ghost use Rattle.cs_io.specs.Outside.{beside};
ghost use Rattle.cs_spawn.specs.Deeds.{Start, Wait};
ghost use Rattle.cs_spawn.specs.Running.{ClusterGoesOn, RiseBetween};

use crate::error::ClusterError;
use crate::words::end_line;
use cs_base::{Sink, WriteError, print};
use cs_io::{Spawner, Started, Waited};
use std::alloc::Global;

/// Starts a child with these words, gives its number, and keeps it among those that are left.
pub fn start<P: Spawner>(
    spawner: &mut P,
    words: &[String],
    left: &mut Vec<u64>,
) -> Result<u64, ClusterError>
    ensures does { (written : Option (List ℕ)) →
        ClusterGoesOn (Start (map string_bytes words.now) ∷ []) left.old.items left.new.items
        (beside (P.told spawner.old) written)
        (beside (P.told spawner.new) written) result }
    ensures number { IfOk result (λ number. number ≡ (P.told spawner.old).children) }
    ensures other { IfErr result (λ error. error ≢ ClusterError.WriteFault) }
    ensures cause { HasCause (P.faults spawner.old) (P.faults spawner.new)
        (IsErrOf result ClusterError.SpawnFault) }
{
    // Room first, so that no child is started that isn't kept.
    if left.reserve(1).is_err() {
        return Err(ClusterError::Memory);
    }
    match spawner.start(words) {
        Started::Started(number) => {
            left.push(number).unwrap();
            Ok(number)
        }
        Started::Failed => Err(ClusterError::SpawnFault),
        Started::Memory => Err(ClusterError::Memory),
    }
}

// The child isn't left any more.
fn forget(left: &mut Vec<u64>, child: u64)
    ensures { left.new.items ≡ filter (λ other. not (other == child)) left.old.items }
{
    left.retain(|other| *other != child);
}

/// Waits until a child has ended, which then isn't left, and prints its line: its title, and its
/// status.
pub fn await_end<P: Spawner, K: Sink>(
    alloc: Global,
    spawner: &mut P,
    title: &str,
    child: u64,
    left: &mut Vec<u64>,
    out: &mut K,
) -> Result<(), ClusterError>
    requires { child < (P.told spawner.old).children }
    ensures does { ClusterGoesOn (Wait title.now child ∷ []) left.old.items left.new.items
        (beside (P.told spawner.old) (K.written out.old))
        (beside (P.told spawner.new) (K.written out.new)) result }
    ensures spawner { HasCause (P.faults spawner.old) (P.faults spawner.new)
        (IsErrOf result ClusterError.SpawnFault) }
    ensures sink { HasCause (K.faults out.old) (K.faults out.new)
        (IsErrOf result ClusterError.WriteFault) }
{
    let status = match spawner.wait(child) {
        Waited::Ended(status) => status,
        Waited::Failed => return Err(ClusterError::SpawnFault),
    };
    forget(left, child);
    let line = end_line(alloc, title, status)?;
    match print(out, line.as_bytes()) {
        Ok(()) => Ok(()),
        Err(WriteError::Failed) => Err(ClusterError::WriteFault),
        Err(WriteError::Memory) => Err(ClusterError::Memory),
    }
}

/// Tells these children to end, whatever comes of it.
pub fn end_all<P: Spawner>(spawner: &mut P, children: &[u64])
    requires there { RiseBetween 0 (P.told spawner.old).children children.now }
    requires spared { AllByRecursion (λ child. (P.told spawner.old).ended child ≡ false) children.now }
    ensures ended { EndsThese children.now (P.told spawner.old).ended (P.told spawner.new).ended }
    ensures started { Stays (P.told spawner.old).started (P.told spawner.new).started }
    ensures children { (P.told spawner.new).children ≡ (P.told spawner.old).children }
    ensures unstarted { (P.told spawner.new).unstarted ≡ (P.told spawner.old).unstarted }
    ensures statuses { Stays (P.told spawner.old).statuses (P.told spawner.new).statuses }
    ensures faults { P.faults spawner.old ≤ P.faults spawner.new }
{
    for child in children {
        let _ = spawner.end(*child);
    }
}
