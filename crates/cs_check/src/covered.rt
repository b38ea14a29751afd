//! A checkpoint with the leaves that it covers.
ghost use Rattle.std.specs.Prelude.{◌≡◌, ◌<◌, length, IfOk};
ghost use Rattle.cs_tx_types.specs.declared.limits.TheConstants.{COVERED};
ghost use Rattle.cs_merkle.specs.Tree.{leaves_of_vectors};
ghost use Rattle.cs_merkle.specs.Path.{audit_path as path_in};
ghost use Rattle.cs_check.specs.Kept.{AreAll, IsProofAt};

use crate::leaf::read_leaf;
use cs_base::{Memory, Sequence};
use cs_check_rules::{Checkpoint, Digest, Proof};
use cs_merkle::path;
use std::alloc::Global;
use std::marker::Model;

/// A checkpoint, and the leaves of the 16 slots that it covers, as encoded.
#[derive(Drop)]
pub(crate) struct Covered {
    checkpoint: Checkpoint,
    leaves: Vec<Vec<u8>>,
}

impl Model for Covered {
    ghost use Rattle.cs_merkle.specs.Tree.{leaves_of_vectors};
    ghost use Rattle.cs_check_rules.specs.Chain as log;
    ghost use Rattle.cs_check.specs.Kept.{AreAll};

    ghost Value = { log.Covered };

    ghost view = { λ c. record {
      checkpoint = c.checkpoint;
      leaves = leaves_of_vectors c.leaves.items;
    } };

    ghost invariant = { λ c. AreAll (leaves_of_vectors c.leaves.items) };
}

fn audit_path(alloc: Global, leaves: &[Vec<u8>], place: usize) -> Result<Vec<Digest>, Memory>
    requires { place < length leaves.now }
    ensures { IfOk result (λ hashes. hashes.items ≡ path_in (leaves_of_vectors leaves.now) place) }
{
    match path(alloc, leaves, place) {
        Ok(hashes) => Ok(hashes),
        Err(_) => Err(Memory),
    }
}

impl Covered {
    pub(crate) fn new(checkpoint: Checkpoint, leaves: Vec<Vec<u8>>) -> Covered
        requires { AreAll (leaves_of_vectors leaves.items) }
        ensures { result ≡ record {
          checkpoint = checkpoint;
          leaves = leaves_of_vectors leaves.items;
        } }
    {
        Covered { checkpoint, leaves }
    }

    /// The leaf at a place with the checkpoint, and the path from the one to the other.
    pub(crate) fn prove(&self, alloc: Global, place: usize) -> Result<Proof, Memory>
        requires { place < COVERED }
        ensures { IfOk result (IsProofAt self.now place) }
    {
        let leaves = self.leaves.as_slice();
        let leaf = read_leaf(alloc, leaves, place)?;
        let hashes = audit_path(alloc, leaves, place)?;
        Ok(Proof {
            checkpoint: self.checkpoint,
            place: place as u16,
            leaf,
            path: Sequence::from_vec(hashes),
        })
    }
}
