//! What a client is asked for.

/// What a client is asked for beside its files.
#[derive(Clone, Copy, Debug, PartialEq, Eq)]
pub struct Wishes {
    /// Whether it tells details.
    pub details: bool,
    /// How often its call is made at most.
    pub tries: u64,
    /// The serial of the first dummy that it asks a shard for, or none where it asks for any.
    pub dummy: Option<u64>,
}
