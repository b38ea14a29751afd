//! Transactions and sessions: their digests and keys, what they use, the tests of a session,
//! judges.
#![tactic(auto)]

mod digests;
mod formation;
mod judge;
mod malformed;
mod names;
mod token;
mod uses;

pub use cs_tx_types::{
    Action, Checkpoint, Effect, Entry, Leaf, Proof, Record, Session, State, Stored, Trace, Tx,
    Versioned, Vote,
};
pub use cs_tx_value::{Digest, Encoded, FormError, Name, Object, Value};
pub use digests::{entry_digest, genesis_key, output_keys, output_name, session_digest, tx_digest};
pub use formation::well_formed;
pub use judge::{Clerk, Judge};
pub use malformed::Malformed;
pub use token::{TokenJudge, id_of_token};
pub use uses::{anchor, concerned};
