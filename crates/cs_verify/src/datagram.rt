//! Datagrams that carry a proof.
ghost use Rattle.std.specs.Prelude.{◌≡◌, ◌≤◌, length, option_copied};
ghost use Rattle.cs_base.specs.declared.limits.TheConstants.{LEAST_DATAGRAM};
ghost use Rattle.cs_wire.specs.Datagram.{is_sized as sized_so, body_in};
ghost use Rattle.cs_verify.specs.Forms.{is_proof_front, body_size_in, is_formed as formed_so, proof_body as body_of_proof};

use cs_base::{LEAST_DATAGRAM, MOST_DATAGRAM};
use cs_wire::MAGIC;
use cs_wire_message::kinds::PROOF;

/// What the datagram of a proof begins with.
const FRONT: [u8; 5] = [MAGIC[0], MAGIC[1], MAGIC[2], MAGIC[3], PROOF];

/// The bytes of the magic and the kind, of the two names, and of the length of the body.
const KINDED: usize = 5;

const NAMES: usize = 8;

const SIZE: usize = 4;

/// The bytes of the tag.
const TAG: usize = 32;

// Whether this is what the datagram of a proof begins with: its magic and its kind.
fn is_proof_front(front: &[u8]) -> bool
    ensures { result ≡ is_proof_front front.now }
{
    front == FRONT.as_slice()
}

// The length of the body, as the head tells it.
fn size_in(bytes: &[u8]) -> u32
    requires { LEAST_DATAGRAM ≤ length bytes.now }
    ensures { result ≡ body_size_in bytes.now }
{
    let (_, named) = bytes.split_at(KINDED);
    let (_, sized) = named.split_at(NAMES);
    let (size, _) = sized.split_at(SIZE);
    u32::from_be_bytes([size[0], size[1], size[2], size[3]])
}

fn is_sized(size: u32, bytes: &[u8]) -> bool
    ensures { result ≡ sized_so size bytes.now }
{
    bytes.len() == size as usize + LEAST_DATAGRAM && bytes.len() <= MOST_DATAGRAM
}

// Whether the head is that of the datagram of a proof, and the length is right. Names and tag
// aren't looked at.
fn is_formed(bytes: &[u8]) -> bool
    ensures { result ≡ formed_so bytes.now }
{
    if bytes.len() < LEAST_DATAGRAM {
        return false;
    }
    let (front, _) = bytes.split_at(KINDED);
    is_proof_front(front) && is_sized(size_in(bytes), bytes)
}

// What stands between the head and the tag.
fn body_of(bytes: &[u8]) -> &[u8]
    requires { LEAST_DATAGRAM ≤ length bytes.now }
    ensures { result.now ≡ body_in bytes.now }
{
    let (text, _) = bytes.split_at(bytes.len() - TAG);
    let (_, body) = text.split_at(KINDED + NAMES + SIZE);
    body
}

/// The body of the datagram of a proof, where the bytes have the form of one.
pub(crate) fn proof_body(bytes: &[u8]) -> Option<&[u8]>
    ensures { option_copied result ≡ body_of_proof bytes.now }
{
    if bytes.len() < LEAST_DATAGRAM || !is_formed(bytes) {
        return None;
    }
    Some(body_of(bytes))
}
