//! SHA-256 of a letter and bytes, and the tag of bytes under a key. Nothing here takes memory.
#![tactic(auto)]

mod equal;
mod letter;
mod mac;
mod tag_key;

pub use equal::same;
pub use letter::tagged;
pub use mac::tag;
pub use tag_key::TagKey;

/// SHA-256 of something.
pub type Digest = [u8; 32];
