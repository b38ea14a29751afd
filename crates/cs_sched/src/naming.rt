//! Names of nodes and clients in fields.
ghost use Rattle.std.specs.Prelude.{◌≡◌};
ghost use Rattle.cs_sched.specs.Naming.{name_of_field, is_liar, liars_of, liar_in, speaker_in, honest_in};

use cs_base::{Config, NodeId, read_node};
use cs_text::Cause;

pub(crate) fn read_name(config: &Config, field: &[u8]) -> Result<NodeId, Cause>
    ensures { result ≡ name_of_field config.now field.now }
{
    let name = read_node(field).ok_or(Cause::Node)?;
    if !config.has(name) {
        return Err(Cause::Node);
    }
    Ok(name)
}

/// Whether a name is that of one of the liars.
pub fn is_liar(liars: &[NodeId], name: NodeId) -> bool
    ensures { result ≡ is_liar liars.now name }
{
    liars.iter().any(|liar| *liar == name)
}

fn count_liars(liars: &[NodeId], shard: u16) -> usize
    ensures { result ≡ liars_of liars.now shard }
{
    liars.iter().filter(|liar| liar.shard == shard).count()
}

// A node that can be one more liar.
pub(crate) fn read_liar(config: &Config, liars: &[NodeId], field: &[u8]) -> Result<NodeId, Cause>
    ensures { result ≡ liar_in config.now liars.now field.now }
{
    let name = read_name(config, field)?;
    if name.is_client() {
        return Err(Cause::Role);
    }
    if is_liar(liars, name) {
        return Err(Cause::Liars);
    }
    if count_liars(liars, name.shard) < usize::from(config.f) {
        Ok(name)
    } else {
        Err(Cause::Liars)
    }
}

// A liar or a client.
pub(crate) fn read_speaker(config: &Config, liars: &[NodeId], field: &[u8]) -> Result<NodeId, Cause>
    ensures { result ≡ speaker_in config.now liars.now field.now }
{
    let name = read_name(config, field)?;
    if name.is_client() || is_liar(liars, name) {
        Ok(name)
    } else {
        Err(Cause::Role)
    }
}

// An honest node.
pub(crate) fn read_honest(config: &Config, liars: &[NodeId], field: &[u8]) -> Result<NodeId, Cause>
    ensures { result ≡ honest_in config.now liars.now field.now }
{
    let name = read_name(config, field)?;
    if name.is_client() || is_liar(liars, name) {
        Err(Cause::Role)
    } else {
        Ok(name)
    }
}
