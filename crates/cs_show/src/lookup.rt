//! What is looked up.
use cs_base::{Config, Key};
use cs_wire::Keys;

/// What is looked up, and by what: the deployment, the keys of a client, and the key.
#[derive(Drop)]
pub struct Lookup {
    pub config: Config,
    pub keys: Keys,
    pub key: Key,
}
