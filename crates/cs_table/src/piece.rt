//! Keys with the objects that a session carries under them.
use cs_base::Key;
use cs_tx::Object;

/// A key and the object that is carried under it.
#[derive(Drop)]
pub struct Piece {
    pub key: Key,
    pub object: Object,
}
