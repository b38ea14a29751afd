//! What an order carries: entries, as they are written in a version.
ghost use Rattle.std.specs.Prelude.{◌≡◌, IfOk, IfSome};
ghost use Rattle.cs_base.specs.Fields.{IsBytes, whole_at};
ghost use Rattle.cs_tx_types.specs.declared.action.Action.TheVariants.{Prepare};
ghost use Rattle.cs_tx_types.specs.Entry.{EntryFits, entry_at, entry_alone};
ghost use Rattle.cs_node_rules.specs.Deployment.{proposed_of, bare_trace, no_session, entry_read};

use cs_base::{Memory, Sequence, Version};
use cs_hash::tagged;
use cs_order::Proposed;
use cs_tx::{Action, Entry, FormError, Name, Session, Trace, Tx, Versioned};
use std::alloc::Global;

/// The entry that all of the bytes encode, if they encode one.
fn whole(alloc: Global, bytes: &[u8], version: Version) -> Result<Option<Entry>, Memory>
    ensures found { IfOk result (λ found. found ≡ whole_at (entry_at version) bytes.now) }
    ensures fits { IfOk result (λ found. IfSome found (EntryFits version)) }
    ensures bytes { IsBytes bytes.now }
{
    match Entry::decode(alloc, bytes, version.number()) {
        Ok(entry) => Ok(Some(entry)),
        Err(FormError::Memory) => Err(Memory),
        Err(FormError::TooLong) => Ok(None),
        Err(FormError::BadForm) => Ok(None),
    }
}

/// The entry that was proposed.
pub fn read_entry(
    alloc: Global,
    proposed: &Proposed,
    version: Version,
) -> Result<Option<Entry>, Memory>
    ensures found { IfOk result (λ found. found ≡ entry_read version proposed.now) }
    ensures fits { IfOk result (λ found. IfSome found (EntryFits version)) }
{
    whole(alloc, proposed.bytes.as_slice(), version)
}

// A trace that uses and makes nothing.
fn bare_trace(alloc: Global) -> Result<Trace, Memory>
    ensures { IfOk result (λ trace. trace ≡ bare_trace) }
{
    Ok(Trace {
        contract: [0; 32],
        method: Name::from_vec(Vec::from_slice(alloc, b"void")?),
        inputs: Sequence::new(alloc),
        references: Sequence::new(alloc),
        parameters: Sequence::new(alloc),
        outputs: Sequence::new(alloc),
        returns: Sequence::new(alloc),
        deps: Sequence::new(alloc),
    })
}

// A session without an input.
fn no_session(alloc: Global) -> Result<Session, Memory>
    ensures { IfOk result (λ session. session ≡ no_session) }
{
    let mut traces = Sequence::new(alloc);
    traces.push(bare_trace(alloc)?)?;
    Ok(Session {
        tx: Tx { traces },
        number: 0,
        dummies: Sequence::new(alloc),
    })
}

/// The entry that stands for bytes that are none: a vote on a session that isn't well formed.
pub fn void_entry(alloc: Global) -> Result<Entry, Memory>
    ensures { IfOk result (λ entry. entry ≡ entry_alone (Prepare no_session)) }
{
    let mut actions = Sequence::new(alloc);
    actions.push(Action::Prepare(no_session(alloc)?))?;
    Ok(Entry { actions })
}

/// An entry with its digest, to be proposed. Its encoding is made once and hashed.
pub fn propose_entry(alloc: Global, entry: &Entry, version: Version) -> Result<Proposed, Memory>
    requires { EntryFits version entry.now }
    ensures { IfOk result (λ proposed. proposed ≡ proposed_of version entry.now) }
{
    let bytes = entry.to_bytes(alloc, version)?;
    Ok(Proposed {
        digest: tagged(b'E', &bytes),
        bytes: Sequence::from_vec(bytes),
    })
}
