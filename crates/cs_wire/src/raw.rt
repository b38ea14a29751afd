//! Sealing bytes of any kind, as liars do.
ghost use Rattle.std.specs.Prelude.{◌≡◌, ◌≤◌, ◌↔◌, ℕ, List, None, length, IfOk, OnOk, OnErr, IsErrOf};
ghost use Rattle.cs_base.specs.declared.limits.TheConstants.{MOST_BODY};
ghost use Rattle.cs_base.specs.declared.node_id.NodeId.{NodeId as Name};
ghost use Rattle.cs_base.specs.declared.version.Version.{Version as Edition};
ghost use Rattle.cs_wire_message.specs.declared.message.Message.{Message};
ghost use Rattle.cs_wire_message.specs.Message.{kind_of, body_of};
ghost use Rattle.cs_wire.specs.Datagram.{sealed, text_with, datagram_with};
ghost use Rattle.cs_wire.specs.Keys.{row_of};
ghost use Rattle.cs_wire.specs.Raw.{SealsWith};
ghost use Rattle.cs_wire.specs.declared.sealing.SealError.TheVariants.{NoKey};

use crate::head::{magic_of, write_name};
use crate::keys::Keys;
use crate::sealing::SealError;
use cs_base::{LEAST_DATAGRAM, Memory, NodeId, Version, Writer};
use cs_hash::TagKey;
use std::alloc::Global;

// What stands before the tag, with room for the tag.
#[tactic(auto, unfolding(crate::specs::Datagram::text_with))]
fn text(
    alloc: Global,
    version: Version,
    from: NodeId,
    to: NodeId,
    kind: u8,
    body: &[u8],
) -> Result<Vec<u8>, Memory>
    requires { length body.now ≤ MOST_BODY }
    ensures { IfOk result (λ text. text.items ≡ text_with version from to kind body.now) }
{
    let mut out = Writer::with_room(alloc, LEAST_DATAGRAM + body.len())?;
    out.take(magic_of(version).as_slice())?;
    out.u8(kind)?;
    write_name(from, &mut out)?;
    write_name(to, &mut out)?;
    out.u32(body.len() as u32)?;
    out.take(body)?;
    Ok(out.into_bytes())
}

/// The datagram of any kind and body under a key.
pub fn datagram(
    alloc: Global,
    version: Version,
    key: &TagKey,
    from: NodeId,
    to: NodeId,
    kind: u8,
    body: &[u8],
) -> Result<Vec<u8>, Memory>
    requires { length body.now ≤ MOST_BODY }
    ensures { IfOk result (λ bytes. bytes.items ≡ datagram_with version key.now from to kind body.now) }
{
    let mut bytes = text(alloc, version, from, to, kind, body)?;
    let tag = key.tag(&bytes);
    bytes.extend_from_slice(&tag)?;
    Ok(bytes)
}

/// Appends the datagram of any kind and body to a peer: its head and its tag are right, and what it
/// says may be no message. Where it is refused, nothing is appended. To nothing it is moved.
pub fn seal_with(
    alloc: Global,
    keys: &Keys,
    to: NodeId,
    kind: u8,
    body: &[u8],
    out: &mut Vec<u8>,
) -> Result<(), SealError>
    requires { length body.now ≤ MOST_BODY }
    ensures ok { OnOk result (SealsWith keys.now to kind body.now out.old.items out.new.items) }
    ensures no_key { IsErrOf result NoKey ↔ (row_of to keys.now ≡ None) }
    ensures err { OnErr result (out.new.items ≡ out.old.items) }
{
    let Some(row) = keys.row(to) else {
        return Err(SealError::NoKey);
    };
    let bytes = datagram(alloc, keys.version, &row.to, keys.me, to, kind, body)?;
    if out.is_empty() {
        *out = bytes;
        return Ok(());
    }
    out.extend_from_slice(&bytes)?;
    Ok(())
}

/// The datagram of a message is that of its kind and its body.
#[tactic(auto, using(crate::proofs::Masters::sealed_is))]
pub fn a_message_is_sealed_by_kind_and_body()
    ensures { (version : Edition) (key : List ℕ) (from to : Name) (m : Message)
        → sealed version key from to m
        ≡ datagram_with version key from to (kind_of m) (body_of version m) }
{}
