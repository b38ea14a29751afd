//! What a member claims as it enters a view.
use cs_base::Sequence;
use cs_tx_value::Digest;

/// The pair of a view and a digest that the member has prepared in the slot, if any, and each
/// digest that it has echoed there with the greatest view in which it did. What fits has views
/// below the one that is entered, and at most 16 digests, which rise.
#[derive(Drop)]
pub struct Change {
    pub prepared: Option<(u16, Digest)>,
    pub echoed: Sequence<(Digest, u16)>,
}
