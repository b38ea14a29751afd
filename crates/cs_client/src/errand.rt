//! What a client is to do.
use cs_approve::Book;
use cs_base::Config;
use cs_config::CallFile;
use cs_tx_types::Session;
use cs_wire::Keys;

/// What a client is to do, and by what: the deployment, its keys, the contracts, and the call. Where
/// a session of that call was made before, it is submitted as it is. Dummies are asked for from this
/// serial on, or any is.
#[derive(Drop)]
pub struct Errand {
    pub config: Config,
    pub keys: Keys,
    pub book: Book,
    pub call: CallFile,
    pub session: Option<Session>,
    pub dummy: Option<u64>,
}
