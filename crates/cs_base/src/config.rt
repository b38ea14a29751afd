//! How a deployment is laid out.
ghost use Rattle.std.specs.Prelude.{◌≡◌, ◌<◌, ◌≤◌};
ghost use Rattle.cs_base.specs.declared.limits.TheConstants.{MOST_SHARDS, MOST_LIARS, MOST_DUMMIES, LAST_VERSION};

use crate::limits::{LAST_VERSION, MOST_DUMMIES, MOST_LIARS, MOST_SHARDS};
use crate::node_id::NodeId;

/// The shards, the liars that each stands, the dummies with which each begins, and the number of the
/// version. A shard has 3f+1 nodes.
#[derive(Clone, Copy, Debug, PartialEq, Eq)]
pub struct Config {
    pub shards: u16,
    pub f: u16,
    pub dummies: u16,
    pub version: u8,
    ghost some_shard: { 0 < shards },
    ghost few_shards: { shards ≤ MOST_SHARDS },
    ghost few_liars: { f ≤ MOST_LIARS },
    ghost few_dummies: { dummies ≤ MOST_DUMMIES },
    ghost some_version: { 1 ≤ version },
    ghost few_versions: { version ≤ LAST_VERSION },
}

/// A number of a configuration.
#[derive(Clone, Copy, Debug, PartialEq, Eq)]
pub enum ConfigField {
    Shards,
    F,
    Dummies,
    Version,
}

/// The first number of a configuration that is out of its range.
#[derive(Clone, Copy, Debug, PartialEq, Eq)]
pub struct OutOfRange(pub ConfigField);

impl Config {
    ghost use Rattle.cs_base.specs.Config.{configured, configured_in};
    ghost use Rattle.cs_base.specs.NodeId.{is_node, is_named};

    /// A configuration of 1 to 16 shards, with f from 0 to 5 and 0 to 64 dummies, of version 1.
    pub fn new(shards: u16, f: u16, dummies: u16) -> Result<Config, OutOfRange>
        ensures { result ≡ configured shards f dummies }
    {
        Config::with_version(shards, f, dummies, 1)
    }

    /// The same, of version 1 or 2.
    pub fn with_version(
        shards: u16,
        f: u16,
        dummies: u16,
        version: u8,
    ) -> Result<Config, OutOfRange>
        ensures { result ≡ configured_in shards f dummies version }
    {
        if shards == 0 || shards > MOST_SHARDS {
            return Err(OutOfRange(ConfigField::Shards));
        }
        if f > MOST_LIARS {
            return Err(OutOfRange(ConfigField::F));
        }
        if dummies > MOST_DUMMIES {
            return Err(OutOfRange(ConfigField::Dummies));
        }
        if version == 0 || version > LAST_VERSION {
            return Err(OutOfRange(ConfigField::Version));
        }
        Ok(Config {
            shards,
            f,
            dummies,
            version,
        })
    }

    /// Whether this is the name of a node of the configuration.
    pub fn has_node(&self, id: NodeId) -> bool
        ensures { result ≡ is_node self.now id }
    {
        id.shard < self.shards && id.index <= 3 * self.f
    }

    /// Whether this is the name of a node of the configuration, or of a client.
    pub fn has(&self, id: NodeId) -> bool
        ensures { result ≡ is_named self.now id }
    {
        self.has_node(id) || id.is_client()
    }
}
