//! What the types tell of limits that the definitions have: digests, keys and checkpoints fit.
ghost use Rattle.std.specs.Prelude.{◌<◌, ◌^◌};
ghost use Rattle.cs_tx_value.specs.Object.{DigestFits};
ghost use Rattle.cs_tx_value.specs.Key.{KeyFits};
ghost use Rattle.cs_base.specs.declared.version.Version.{Version as Edition};
ghost use Rattle.cs_tx_types.specs.Log.{CheckpointFits, LeavesFit};

use crate::checkpoint::Checkpoint;
use cs_base::Key;
use cs_tx_value::Digest;

/// A digest is within all limits.
pub fn digest_fits(digest: &Digest)
    ensures { DigestFits digest.now }
{
    let _bytes = digest.as_slice();
}

/// A key is within all limits.
pub fn key_fits(key: &Key)
    ensures { KeyFits key.now }
{
    match key {
        Key::Object(digest) => digest_fits(digest),
        Key::Dummy(shard, serial) => {
            let _numbers = (*shard, *serial);
        }
    }
}

fn numbers_fit(shard: u16, number: u64)
    ensures shard { shard < 2 ^ 16 }
    ensures number { number < 2 ^ 64 }
{}

/// A checkpoint is within all limits of a version where its number of leaves is.
pub fn checkpoint_fits(checkpoint: &Checkpoint)
    ensures { (version : Edition) → LeavesFit version checkpoint.now.leaves
        → CheckpointFits version checkpoint.now }
{
    digest_fits(&checkpoint.previous);
    digest_fits(&checkpoint.leaf_root);
    digest_fits(&checkpoint.table_root);
    numbers_fit(checkpoint.shard, checkpoint.number);
}
