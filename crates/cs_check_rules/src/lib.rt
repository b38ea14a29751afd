//! The checkpoints of a shard's log as definitions: the keys of which a shard knows something,
//! the root over their records, heads, what other members told, and the test of a proof that an
//! entry stands in a log.
#![tactic(auto)]

mod head;
mod kept;
mod known_keys;
mod laws;
mod leaf;
mod shown;

pub use cs_tx::{Checkpoint, Digest, Leaf, Proof};
pub use head::checkpoint_head;
pub use kept::KEPT_SLOTS;
pub use known_keys::{
    keys_rise_as_bytes, known_keys_after_an_entry, known_keys_are_one, known_keys_at_the_start,
};
pub use laws::shown_leaf_is_covered;
pub use leaf::encode_leaf;
pub use shown::shows;
