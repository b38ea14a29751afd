//! What a journal begins with.
ghost use Rattle.std.specs.Prelude.{◌≡◌, IfOk};
ghost use Rattle.std.specs.Int.{w16};
ghost use Rattle.cs_hash.specs.Hash.{tagged_digest};
ghost use Rattle.cs_base.specs.declared.node_id.NodeId.{NodeId};
ghost use Rattle.cs_journal.specs.Journal.{head, named_bytes};

use cs_base::{Memory, NodeId, Sequence, Writer};
use cs_hash::{Digest, tagged};
use std::alloc::Global;

/// The id by which a journal names its node: SHA-256 of the letter J, and of the site's text, the
/// texts of its contracts and the node's name.
pub fn journal_id(
    alloc: Global,
    site: &[u8],
    texts: &[Sequence<u8>],
    node: NodeId,
) -> Result<Digest, Memory>
    ensures { IfOk result (λ id. id ≡ tagged_digest 74 (named_bytes site.now texts.now node)) }
{
    let mut out = Writer::new(alloc);
    put_text(&mut out, site)?;
    for text in texts {
        put_text(&mut out, text.as_slice())?;
    }
    out.u16(node.shard)?;
    out.u16(node.index)?;
    Ok(tagged(b'J', &out.into_bytes()))
}

ghost use Rattle.std.specs.Prelude.{◌++◌, OnOk};
ghost use Rattle.cs_journal.specs.Journal.{counted_text};

// Appends the length of a text, and the text.
fn put_text(out: &mut Writer, text: &[u8]) -> Result<(), Memory>
    ensures { OnOk result (out.new ≡ out.old ++ counted_text text.now) }
{
    let Ok(length) = u32::try_from(text.len()) else {
        return Err(Memory);
    };
    out.u32(length)?;
    out.take(text)
}

/// "CSJ1" and the id.
pub fn head_of(alloc: Global, id: &Digest) -> Result<Writer, Memory>
    ensures { IfOk result (λ writer. writer ≡ head id.now) }
{
    let mut out = Writer::with_room(alloc, 37)?;
    out.take(b"CSJ1")?;
    out.take(id)?;
    Ok(out)
}
