//! What stands before the body of a datagram.
ghost use Rattle.std.specs.Prelude.{◌≡◌, ◌++◌, OnOk, OnErr};
ghost use Rattle.std.specs.Int.{w32};
ghost use Rattle.cs_base.specs.Fields.{bytes_at};
ghost use Rattle.cs_tx_value.specs.Reading.{Begins};
ghost use Rattle.cs_wire_message.specs.Reading.{Gets};
ghost use Rattle.cs_wire.specs.Datagram.{magic_of as magic_so, node_name_encoding};
ghost use Rattle.cs_wire.specs.Heads.{node_name_at, head_at, head_seen};

use cs_base::{Cursor, Memory, NodeId, Version, Writer};
use cs_tx_value::FormError;

/// The first bytes of a datagram.
pub const MAGIC: [u8; 4] = *b"CSP1";

/// The same where entries are batches.
pub const MAGIC_OF_BATCHES: [u8; 4] = *b"CSP2";

/// The first bytes of a datagram of a version.
pub fn magic_of(version: Version) -> [u8; 4]
    ensures { result ≡ magic_so version }
{
    match version {
        Version::One => MAGIC,
        Version::Two => MAGIC_OF_BATCHES,
    }
}

/// What stands before the body of a datagram.
#[derive(Clone, Copy, Debug, PartialEq, Eq)]
pub struct Head {
    pub magic: [u8; 4],
    pub kind: u8,
    pub from: NodeId,
    pub to: NodeId,
    /// The number of bytes of the body.
    pub size: u32,
}

fn next_magic(cursor: &mut Cursor<'_>) -> Result<[u8; 4], FormError>
    ensures { Gets result cursor.new (bytes_at 4 cursor.old) }
{
    let bytes = cursor.take(4)?;
    let mut magic = [0; 4];
    magic.copy_from_slice(bytes);
    Ok(magic)
}

#[tactic(auto, unfolding(crate::specs::Heads::node_name_at, cs_base::specs::Fields::pair_at))]
fn next_name(cursor: &mut Cursor<'_>) -> Result<NodeId, FormError>
    ensures { Gets result cursor.new (node_name_at cursor.old) }
{
    let shard = cursor.u16()?;
    let index = cursor.u16()?;
    Ok(NodeId { shard, index })
}

#[tactic(auto, unfolding(crate::specs::Heads::head_at, cs_base::specs::Fields::pair_at))]
fn next_head(cursor: &mut Cursor<'_>) -> Result<Head, FormError>
    ensures { Gets result cursor.new (head_at cursor.old) }
{
    let magic = next_magic(cursor)?;
    let kind = cursor.u8()?;
    let from = next_name(cursor)?;
    let to = next_name(cursor)?;
    let size = cursor.u32()?;
    Ok(Head {
        magic,
        kind,
        from,
        to,
        size,
    })
}

/// The head of a datagram, or None where there are fewer bytes.
pub fn head_of(bytes: &[u8]) -> Option<Head>
    ensures { result ≡ head_seen bytes.now }
{
    let mut cursor = Cursor::new(bytes);
    match next_head(&mut cursor) {
        Ok(head) => Some(head),
        Err(_) => None,
    }
}

/// Appends a name.
pub fn write_name(name: NodeId, out: &mut Writer) -> Result<(), Memory>
    ensures ok { OnOk result (out.new ≡ out.old ++ node_name_encoding name) }
    ensures err { OnErr result (Begins out.new out.old) }
{
    out.u16(name.shard)?;
    out.u16(name.index)
}
