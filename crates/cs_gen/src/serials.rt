//! The serial numbers of dummies.
ghost use Rattle.std.specs.Prelude.{◌≡◌, ◌+◌, ◌<◌, ◌^◌, ◌==◌, ℕ, length, map, count_by, slice_index, IfOk, replicate};
ghost use Rattle.std.specs.List.{All};

use cs_base::{Memory, Sequence};
use std::alloc::Global;

// The serial number of the next dummy of each shard.
#[derive(Drop)]
pub(crate) struct Serials {
    pub(crate) next: [u64; 3],
}

impl Serials {
    pub(crate) fn new() -> Serials
        ensures { result.next ≡ replicate 3 0 }
    {
        Serials { next: [0; 3] }
    }

    // The next dummy of each of these shards.
    pub(crate) fn dummies(
        &self,
        alloc: Global,
        shards: &[u16],
    ) -> Result<Sequence<(u16, u64)>, Memory>
        requires { All (λ shard. shard < 3) shards.now }
        ensures { IfOk result (λ dummies.
            dummies ≡ map (λ shard. (shard, slice_index self.now.next shard)) shards.now) }
    {
        let mut dummies = Sequence::new(alloc);
        for shard in shards {
            dummies.push((*shard, self.next[usize::from(*shard)]))?;
        }
        Ok(dummies)
    }

    // A dummy of each of these shards is used.
    pub(crate) fn use_up(&mut self, shards: &[u16])
        requires shards { All (λ shard. shard < 3) shards.now }
        requires room { (shard : ℕ) → shard < 3
            → slice_index self.old.next shard + length shards.now < 2 ^ 64 }
        ensures { (shard : ℕ) → shard < 3 → slice_index self.new.next shard
            ≡ slice_index self.old.next shard + count_by (λ other. other == shard) shards.now }
    {
        for shard in shards {
            self.next[usize::from(*shard)] += 1;
        }
    }
}
