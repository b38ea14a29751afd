//! The numbers of the kinds of messages.
ghost use Rattle.std.specs.Prelude.{◌≡◌};
ghost use Rattle.cs_wire_message.specs.Message.{is_kind as kind_so};

/// A client wants a session to be tried.
pub const SUBMIT: u8 = 1;

/// The leader of a view proposes an entry.
pub const PROPOSE: u8 = 2;

/// A member has admitted a proposal.
pub const ECHO: u8 = 3;

/// A member has seen enough echoes.
pub const CONFIRM: u8 = 4;

/// A member enters a view.
pub const CHANGE: u8 = 5;

/// A node's vote on a session.
pub const VOTED: u8 = 6;

/// What a node has decided on a session.
pub const DECIDED: u8 = 7;

/// A member lacks the entry of a slot.
pub const WANT: u8 = 8;

/// The entry that was chosen for a slot.
pub const DONE: u8 = 9;

/// A client asks for the record of a key.
pub const ASK: u8 = 10;

/// The state of a key.
pub const TOLD: u8 = 11;

/// A member has made a checkpoint.
pub const HEAD: u8 = 12;

/// A client asks for the proof of a slot.
pub const ASK_PROOF: u8 = 13;

/// The proof of a slot.
pub const PROOF: u8 = 14;

/// Whether this is the number of a kind: they are those from the first to the last of these.
pub fn is_kind(kind: u8) -> bool
    ensures { result ≡ kind_so kind }
{
    kind >= SUBMIT && kind <= PROOF
}
