//! Counting the nodes that say what has become of a session.
ghost use Rattle.std.specs.Prelude.{◌≡◌, ◌<◌, ◌≤◌, ◌+◌, ◌*◌, ◌==◌, ◌&&◌, ◌||◌, not, true, false, map, IfOk};
ghost use Rattle.std.specs.List.{list_all, list_any};
ghost use Rattle.cs_client.specs.Knowing.{outcome};
ghost use Rattle.cs_client.specs.Voices.{IsUnheard, AreUnheard, Heard, EachHeard, VoicesFit, EachFits, is_enough};

use crate::known::Known;
use cs_base::{Config, Memory, NodeId};
use cs_quorum::Tally;
use cs_tx_value::Digest;
use std::alloc::Global;

/// The nodes of a shard that said that a session is accepted, and those that said that it is
/// aborted.
#[derive(Clone, Copy, Drop)]
pub struct Voices {
    pub shard: u16,
    pub accepted: Tally,
    pub aborted: Tally,
}

impl Voices {
    // No node of the shard has said anything.
    fn new(config: &Config, shard: u16) -> Voices
        ensures { IsUnheard config.now.f shard result }
    {
        let members = 3 * config.f + 1;
        Voices {
            shard,
            accepted: Tally::new(members),
            aborted: Tally::new(members),
        }
    }

    // A node of the shard says so.
    fn hear(&mut self, config: &Config, index: u16, accepted: bool)
        requires member { index ≤ 3 * config.now.f }
        requires members { VoicesFit config.now.f self.old }
        ensures { Heard index accepted self.old self.new }
    {
        if accepted {
            self.accepted.mark(index);
        } else {
            self.aborted.mark(index);
        }
    }
}

/// No node of these shards has said anything.
pub fn unheard(alloc: Global, config: &Config, shards: &[u16]) -> Result<Vec<Voices>, Memory>
    ensures { IfOk result (λ voices. AreUnheard config.now.f shards.now voices.items) }
{
    let mut voices = Vec::new(alloc);
    for shard in shards {
        voices.push(Voices::new(config, *shard))?;
    }
    Ok(voices)
}

/// Hears a node say what has become of the session.
pub fn hear(config: &Config, voices: &mut [Voices], from: NodeId, accepted: bool)
    requires member { from.index ≤ 3 * config.now.f }
    requires members { EachFits config.now.f voices.old }
    ensures { EachHeard from accepted voices.old voices.new }
{
    for i in 0..voices.len() {
        if voices[i].shard == from.shard {
            voices[i].hear(config, from.index, accepted);
        }
    }
}

// Whether more than f nodes of each shard said that it is accepted.
fn are_accepted(f: u16, voices: &[Voices]) -> bool
    ensures { result ≡ list_all (λ one. is_enough f one.accepted) voices.now }
{
    voices.iter().all(|one| one.accepted.count() > f)
}

// Whether more than f nodes of one shard said that it is aborted.
fn is_aborted(f: u16, voices: &[Voices]) -> bool
    ensures { result ≡ list_any (λ one. is_enough f one.aborted) voices.now }
{
    voices.iter().any(|one| one.aborted.count() > f)
}

/// What is known of the session of this digest: that it is accepted where more than f nodes of each
/// shard said so, or else that it is aborted where more than f nodes of one said so.
pub fn outcome(f: u16, digest: Digest, voices: &[Voices]) -> Known
    ensures { result ≡ outcome digest
        (list_all (λ one. is_enough f one.accepted) voices.now)
        (list_any (λ one. is_enough f one.aborted) voices.now) }
{
    if are_accepted(f, voices) {
        return Known::Accepted(digest);
    }
    if is_aborted(f, voices) {
        return Known::Aborted(digest);
    }
    Known::Open
}
