//! Those whose words a schedule says: liars and clients.
ghost use Rattle.std.specs.Prelude.{◌≡◌, ◌≤◌, ◌<◌, ℕ, length, IfOk, IfSome, OnOk, List, get_or};
ghost use Rattle.cs_base.specs.declared.limits.TheConstants.{MOST_BODY};
ghost use Rattle.cs_base.specs.declared.config.Config.{Config as AnyConfig};
ghost use Rattle.cs_wire.specs.Keys.{IsOfMaster};
ghost use Rattle.cs_wire.specs.declared.keys.Keys.{Keys as AnyKeys};
ghost use Rattle.cs_replay_play.specs.Voicing.{AreOfMaster, SaysTo, HoldsAt};

use cs_base::{Config, Memory, NodeId, Sequence};
use cs_tx::Digest;
use cs_wire::{Keys, SealError, seal_with};
use std::alloc::Global;
use std::marker::Model;

/// Those whose words a schedule says, with the keys of each who spoke.
#[derive(Drop)]
pub struct Voices {
    config: Config,
    master: Digest,
    keys: Vec<Keys>,
}

impl Model for Voices {
    ghost use Rattle.cs_replay_play.specs.Voicing.{Voicing, AreOfMaster};

    ghost Value = { Voicing };

    ghost view = { λ v. record { config = v.config; master = v.master } };

    ghost invariant = { λ v. AreOfMaster v.config v.master v.keys.items };
}

impl Voices {
    /// Nobody spoke yet.
    pub fn new(alloc: Global, config: Config, master: Digest) -> Self
        ensures config { result.config ≡ config }
        ensures master { result.master ≡ master }
    {
        Voices {
            config,
            master,
            keys: Vec::new(alloc),
        }
    }

    /// A datagram of any kind and body from one name to another. A name without a key gets no byte.
    pub fn say(
        &mut self,
        alloc: Global,
        from: NodeId,
        to: NodeId,
        kind: u8,
        body: &[u8],
    ) -> Result<Vec<u8>, Memory>
        requires short { length body.now ≤ MOST_BODY }
        ensures says { IfOk result (λ bytes. SaysTo self.old from to kind body.now bytes.items) }
        ensures same { OnOk result (self.new ≡ self.old) }
    {
        let place = hold(alloc, &self.config, &self.master, &mut self.keys, from)?;
        let mut bytes = Vec::new(alloc);
        match seal_with(alloc, &self.keys[place], to, kind, body, &mut bytes) {
            Ok(()) => Ok(bytes),
            Err(SealError::NoKey) => Ok(bytes),
            Err(SealError::Memory) => Err(Memory),
        }
    }
}

// The place of the keys of a name, which are made where it speaks for the first time.
fn hold(
    alloc: Global,
    config: &Config,
    master: &Digest,
    keys: &mut Vec<Keys>,
    name: NodeId,
) -> Result<usize, Memory>
    requires { AreOfMaster config.now master.now keys.old.items }
    ensures held { IfOk result (λ place. HoldsAt config.now master.now name keys.new.items place) }
    ensures all { AreOfMaster config.now master.now keys.new.items }
{
    if let Some(place) = place_of(keys.as_slice(), name) {
        return Ok(place);
    }
    let place = keys.len();
    keys.push(Keys::from_master(alloc, config, master, name)?)?;
    Ok(place)
}

// The place of the keys of a name.
fn place_of(keys: &[Keys], name: NodeId) -> Option<usize>
    ensures within { IfSome result (λ place. place < length keys.now) }
    ensures named { IfSome result (λ place. (k : AnyKeys) → (get_or keys.now place k).me ≡ name) }
{
    for (place, held) in keys.iter().enumerate() {
        if held.me() == name {
            return Some(place);
        }
    }
    None
}
