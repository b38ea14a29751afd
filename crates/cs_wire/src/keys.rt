//! The keys of a node or a client: one to each peer, and one from each.
ghost use Rattle.std.specs.Prelude.{◌≡◌, IfOk, option_copied};
ghost use Rattle.cs_wire.specs.Keys.{row_of, row_of_peer, row_listed, stands, Lists, IsOfMaster};
ghost use Rattle.cs_base.specs.NodeId.{same_name as alike};
ghost use Rattle.cs_base.specs.Version.{IsVersion, version_of};

use crate::names::rows_of_master;
use cs_base::{Config, Memory, NodeId, Sequence, Version};
use cs_hash::TagKey;
use cs_tx_value::Digest;
use std::alloc::{AllocFailed, Global};

/// The keys that are shared with a peer.
#[derive(Drop)]
pub struct Row {
    pub peer: NodeId,
    /// The key of what is sent to the peer.
    pub to: TagKey,
    /// The key of what comes from the peer.
    pub from: TagKey,
}

/// The keys of a node or a client, and the version in which it speaks.
#[derive(Drop)]
pub struct Keys {
    pub(crate) me: NodeId,
    pub(crate) rows: Sequence<Row>,
    pub(crate) version: Version,
}

/// Why a list is no list of keys.
#[derive(Clone, Copy, Debug, PartialEq, Eq)]
pub enum KeysError {
    /// The peer at this place stands there a second time, or is the one whose keys they are.
    Twice(usize),
    /// There was not enough memory.
    Memory,
}

impl<T: Drop> From<AllocFailed<T>> for KeysError {
    ghost use Rattle.cs_wire.specs.declared.keys.KeysError.TheVariants.{Memory as NoMemory};

    ghost from_gives = { λ _ e. e ≡ NoMemory };

    fn from(_e: AllocFailed<T>) -> KeysError {
        KeysError::Memory
    }
}

/// Whether two names are the same.
pub fn same_name(a: NodeId, b: NodeId) -> bool
    ensures { result ≡ alike a b }
{
    a.shard == b.shard && a.index == b.index
}

impl Row {
    /// What is shared with a peer: the key to it, and the key from it.
    pub fn new(peer: NodeId, to: &Digest, from: &Digest) -> Row
        ensures { result ≡ row_listed (peer, to.now, from.now) }
    {
        Row {
            peer,
            to: TagKey::new(to),
            from: TagKey::new(from),
        }
    }
}

fn row_among(rows: &[Row], peer: NodeId) -> Option<&Row>
    ensures { option_copied result ≡ row_of_peer peer rows.now }
{
    for row in rows {
        if same_name(row.peer, peer) {
            return Some(row);
        }
    }
    None
}

// Whether the name stands among these.
fn is_among(list: &[(NodeId, Digest, Digest)], name: NodeId) -> bool
    ensures { result ≡ stands name list.now }
{
    list.iter().any(|listed| same_name(listed.0, name))
}

impl Keys {
    /// The keys that a master key gives to a name, with all nodes of the configuration and all
    /// clients but itself as peers.
    pub fn from_master(
        alloc: Global,
        config: &Config,
        master: &Digest,
        me: NodeId,
    ) -> Result<Keys, Memory>
        ensures { IfOk result (λ keys. IsOfMaster config.now master.now me keys) }
    {
        let rows = rows_of_master(alloc, config, master, me)?;
        let version = Version::of(config.version);
        Ok(Keys { me, rows, version })
    }

    /// The keys of a list, of a peer with the key to it and the key from it each, in the version of
    /// this number.
    pub fn from_list(
        alloc: Global,
        me: NodeId,
        list: &[(NodeId, Digest, Digest)],
        version: u8,
    ) -> Result<Keys, KeysError>
        requires { IsVersion version }
        ensures { Lists me list.now (version_of version) result }
    {
        let mut rows = Sequence::new(alloc);
        for i in 0..list.len() {
            let (peer, to, from) = list[i];
            if same_name(peer, me) || is_among(&list[..i], peer) {
                return Err(KeysError::Twice(i));
            }
            rows.push(Row::new(peer, &to, &from))?;
        }
        let version = Version::of(version);
        Ok(Keys { me, rows, version })
    }

    /// The version in which their holder speaks.
    pub fn version(&self) -> Version
        ensures { result ≡ self.now.version }
    {
        self.version
    }

    /// The name that the keys were made for.
    pub fn me(&self) -> NodeId
        ensures { result ≡ self.now.me }
    {
        self.me
    }

    /// The keys that are shared with a peer.
    pub(crate) fn row(&self, peer: NodeId) -> Option<&Row>
        ensures { option_copied result ≡ row_of peer self.now }
    {
        row_among(self.rows.as_slice(), peer)
    }
}
