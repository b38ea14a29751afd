//! Digests of what has an encoding, and the keys that they give to objects.
ghost use Rattle.std.specs.Prelude.{◌≡◌, ◌≤◌, ◌++◌, ◌∷◌, [], length, map, IfOk};
ghost use Rattle.cs_tx_value.specs.Object.{ObjectFits};
ghost use Rattle.std.specs.List.{AllByRecursion};
ghost use Rattle.cs_tx_types.specs.declared.limits.TheConstants.{MOST_TRACES, MOST_TRACE_OBJECTS};
ghost use Rattle.cs_tx_types.specs.Transaction.{TraceFits, TxFits};
ghost use Rattle.cs_tx_types.specs.Session.{SessionFits};
ghost use Rattle.cs_base.specs.Version.{IsVersion, version_of};
ghost use Rattle.cs_tx_types.specs.Entry.{EntryFits};
ghost use Rattle.cs_tx.specs.Digest.{digest_of_tx, digest_of_session, digest_of_entry, name_of_output, name_of_genesis, outputs_at, outputs_from, keys, keys_of_outputs};
ghost use Rattle.cs_base.specs.declared.key.Key.TheVariants.{Object as object_key};

use cs_base::{Key, Memory, Sequence, Version, Writer};
use cs_hash::tagged;
use cs_tx_types::{Entry, Session, Trace, Tx, Versioned};
use cs_tx_value::{Digest, Encoded, Object};
use sha2::{Digest as Hasher, Sha256};
use std::alloc::Global;

/// SHA-256 of the letter T and the encoding.
pub fn tx_digest(alloc: Global, tx: &Tx) -> Result<Digest, Memory>
    requires { TxFits tx.now }
    ensures { IfOk result (λ digest. digest ≡ digest_of_tx tx.now) }
{
    Ok(tagged(b'T', &tx.to_bytes(alloc)?))
}

/// SHA-256 of the letter S and the encoding.
pub fn session_digest(alloc: Global, session: &Session) -> Result<Digest, Memory>
    requires { SessionFits session.now }
    ensures { IfOk result (λ digest. digest ≡ digest_of_session session.now) }
{
    Ok(tagged(b'S', &session.to_bytes(alloc)?))
}

/// SHA-256 of the letter E and the encoding in the version of this number.
pub fn entry_digest(alloc: Global, entry: &Entry, version: u8) -> Result<Digest, Memory>
    requires version { IsVersion version }
    requires fits { EntryFits (version_of version) entry.now }
    ensures { IfOk result (λ digest.
        digest ≡ digest_of_entry (version_of version) entry.now) }
{
    let version = Version::of(version);
    Ok(tagged(b'E', &entry.to_bytes(alloc, version)?))
}

/// The key of the genesis object of this number: SHA-256 of the letter G, the number and the
/// encoding.
pub fn genesis_key(alloc: Global, place: u32, object: &Object) -> Result<Key, Memory>
    requires { ObjectFits object.now }
    ensures { IfOk result (λ key. key ≡ object_key (name_of_genesis place object.now)) }
{
    let mut out = Writer::new(alloc);
    out.u32(place)?;
    object.encode(&mut out)?;
    Ok(Key::Object(tagged(b'G', &out.into_bytes())))
}

/// The name of an output: SHA-256 of the letter O, the transaction's digest, the trace and the
/// place there.
pub fn output_name(digest: &Digest, trace: u16, place: u16) -> Digest
    ensures { result ≡ name_of_output digest.now trace place }
{
    let mut hasher = Sha256::new();
    hasher.update([b'O']);
    hasher.update(digest.as_slice());
    hasher.update(trace.to_be_bytes());
    hasher.update(place.to_be_bytes());
    hasher.finalize()
}

fn trace_keys(
    alloc: Global,
    digest: &Digest,
    trace: u16,
    outputs: &[Object],
) -> Result<Sequence<Key>, Memory>
    requires { length outputs.now ≤ MOST_TRACE_OBJECTS }
    ensures { IfOk result (λ found. found ≡ keys (outputs_at digest.now trace 0 outputs.now)) }
{
    let mut found = Sequence::new(alloc);
    for place in 0..outputs.len() {
        found.push(Key::Object(output_name(digest, trace, place as u16)))?;
    }
    Ok(found)
}

fn keys_of_traces(
    alloc: Global,
    digest: &Digest,
    traces: &[Trace],
) -> Result<Sequence<Sequence<Key>>, Memory>
    requires few { length traces.now ≤ MOST_TRACES }
    requires fit { AllByRecursion TraceFits traces.now }
    ensures { IfOk result (λ found. found ≡ map keys (outputs_from digest.now 0 traces.now)) }
{
    let mut found = Sequence::new(alloc);
    for number in 0..traces.len() {
        let outputs = traces[number].outputs.as_slice();
        found.push(trace_keys(alloc, digest, number as u16, outputs)?)?;
    }
    Ok(found)
}

/// The keys of a transaction's outputs, a list for each trace.
pub fn output_keys(alloc: Global, tx: &Tx) -> Result<Sequence<Sequence<Key>>, Memory>
    requires { TxFits tx.now }
    ensures { IfOk result (λ found. found ≡ keys_of_outputs tx.now) }
{
    let digest = tx_digest(alloc, tx)?;
    keys_of_traces(alloc, &digest, tx.traces.as_slice())
}
