//! Opening datagrams.
ghost use Rattle.std.specs.Prelude.{◌≡◌, ◌≤◌, length, IfOk};
ghost use Rattle.cs_base.specs.declared.limits.TheConstants.{LEAST_DATAGRAM};
ghost use Rattle.cs_wire.specs.Datagram.{has_tag as tagged_so, is_sized as sized_so, body_in};
ghost use Rattle.cs_wire.specs.Opens.{open_fault, head_fault, Checks, Opens};
ghost use Rattle.cs_wire.specs.Heads.{head_seen};

use crate::head::{Head, head_of, magic_of};
use crate::keys::{Keys, same_name};
use crate::view::MessageView;
use cs_base::{LEAST_DATAGRAM, MOST_DATAGRAM, NodeId};
use cs_hash::{TagKey, same};
use cs_wire_message::has_form;
use cs_wire_message::kinds::is_kind;

/// The bytes of a head.
const HEAD: usize = 17;

/// The bytes of a tag.
const TAG: usize = 32;

/// The first test of a datagram that fails; the tests stand here in their order.
#[derive(Clone, Copy, Debug, PartialEq, Eq)]
pub enum OpenError {
    /// There are fewer than 49 bytes.
    Short,
    /// The first four bytes aren't `CSP1`, or in version 2 `CSP2`.
    Magic,
    /// There is no such kind.
    Kind,
    /// The datagram is for another.
    NotMine,
    /// There is no key for the sender.
    Stranger,
    /// The length of the body isn't that of the bytes, or there are more than 32,768 bytes.
    Length,
    /// The tag isn't that of the bytes before it under the sender's key.
    Tag,
    /// The body is none of its kind.
    Body,
}

fn is_sized(size: u32, bytes: &[u8]) -> bool
    ensures { result ≡ sized_so size bytes.now }
{
    bytes.len() == size as usize + LEAST_DATAGRAM && bytes.len() <= MOST_DATAGRAM
}

// Whether the last 32 bytes are the tag of those before them.
fn has_tag(key: &TagKey, bytes: &[u8]) -> bool
    requires { 32 ≤ length bytes.now }
    ensures { result ≡ tagged_so key.now bytes.now }
{
    let (text, given) = bytes.split_at(bytes.len() - TAG);
    let mut read = [0; 32];
    read.copy_from_slice(given);
    same(&read, &key.tag(text))
}

// The head of a datagram that passes the tests before that of the body.
fn tested_head(keys: &Keys, bytes: &[u8]) -> Result<Head, OpenError>
    ensures long { IfOk result (λ head. LEAST_DATAGRAM ≤ length bytes.now) }
    ensures checks { Checks result (open_fault keys.now bytes.now) (head_seen bytes.now) }
{
    if bytes.len() < LEAST_DATAGRAM {
        return Err(OpenError::Short);
    }
    let Some(head) = head_of(bytes) else {
        return Err(OpenError::Short);
    };
    if head.magic.as_slice() != magic_of(keys.version).as_slice() {
        return Err(OpenError::Magic);
    }
    if !is_kind(head.kind) {
        return Err(OpenError::Kind);
    }
    if !same_name(head.to, keys.me) {
        return Err(OpenError::NotMine);
    }
    let Some(row) = keys.row(head.from) else {
        return Err(OpenError::Stranger);
    };
    if !is_sized(head.size, bytes) {
        return Err(OpenError::Length);
    }
    if !has_tag(&row.from, bytes) {
        return Err(OpenError::Tag);
    }
    Ok(head)
}

// What stands between the head and the tag.
fn body_of(bytes: &[u8]) -> &[u8]
    requires { LEAST_DATAGRAM ≤ length bytes.now }
    ensures { result.now ≡ body_in bytes.now }
{
    let (text, _) = bytes.split_at(bytes.len() - TAG);
    let (_, body) = text.split_at(HEAD);
    body
}

/// Opens a datagram: the sender and the message, or the first test that fails. It takes no memory.
pub fn open<'a>(keys: &Keys, bytes: &'a [u8]) -> Result<(NodeId, MessageView<'a>), OpenError>
    ensures { Opens keys.now bytes.now result }
{
    let head = tested_head(keys, bytes)?;
    let body = body_of(bytes);
    if !has_form(head.kind, body, keys.version) {
        return Err(OpenError::Body);
    }
    let view = MessageView {
        version: keys.version,
        kind: head.kind,
        body,
    };
    Ok((head.from, view))
}
