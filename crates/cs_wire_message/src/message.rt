//! Messages.
ghost use Rattle.std.specs.Prelude.{◌≡◌};
ghost use Rattle.cs_wire_message.specs.Message.{kind_of};

use crate::change::Change;
use crate::kinds::{
    ASK, ASK_PROOF, CHANGE, CONFIRM, DECIDED, DONE, ECHO, HEAD, PROOF, PROPOSE, SUBMIT, TOLD,
    VOTED, WANT,
};
use cs_base::Key;
use cs_tx_types::{Checkpoint, Entry, Proof, Session, State, Vote};
use cs_tx_value::Digest;

/// What a node or a client says to another. One that fits has slots below 2^62 and views of at most
/// 1,023, and all that it holds fits in the version.
#[derive(Drop)]
pub enum Message {
    /// A client wants the session to be tried.
    Submit(Session),
    /// The leader of a view proposes an entry for a slot.
    Propose {
        slot: u64,
        view: u16,
        entry: Entry,
    },
    /// A member has admitted the proposal of this digest.
    Echo {
        slot: u64,
        view: u16,
        digest: Digest,
    },
    /// A member has seen enough echoes of this digest.
    Confirm {
        slot: u64,
        view: u16,
        digest: Digest,
    },
    /// A member enters a view, which is above 0.
    Change {
        slot: u64,
        view: u16,
        change: Change,
    },
    /// A node's vote on a session, and whether it asks for the votes of the others.
    Voted {
        vote: Vote,
        asks: bool,
        session: Session,
    },
    /// What a node has decided on the session of this digest.
    Decided {
        session: Digest,
        accepted: bool,
    },
    /// A member lacks the entry of a slot.
    Want {
        slot: u64,
    },
    /// The entry that was chosen for a slot.
    Done {
        slot: u64,
        entry: Entry,
    },
    /// A client asks for the record of a key, or for a dummy that can be used.
    Ask(Option<Key>),
    /// The state of a key.
    Told {
        key: Key,
        state: State,
    },
    /// A member has made a checkpoint.
    Head(Checkpoint),
    /// A client asks for the proof of an action: its slot, and its place there.
    AskProof {
        slot: u64,
        place: u8,
    },
    /// The proof of a slot.
    Proof(Proof),
}

impl Message {
    /// The number of the kind.
    pub fn kind(&self) -> u8
        ensures { result ≡ kind_of self.now }
    {
        match self {
            Message::Submit(_) => SUBMIT,
            Message::Propose { .. } => PROPOSE,
            Message::Echo { .. } => ECHO,
            Message::Confirm { .. } => CONFIRM,
            Message::Change { .. } => CHANGE,
            Message::Voted { .. } => VOTED,
            Message::Decided { .. } => DECIDED,
            Message::Want { .. } => WANT,
            Message::Done { .. } => DONE,
            Message::Ask(_) => ASK,
            Message::Told { .. } => TOLD,
            Message::Head(_) => HEAD,
            Message::AskProof { .. } => ASK_PROOF,
            Message::Proof(_) => PROOF,
        }
    }
}
