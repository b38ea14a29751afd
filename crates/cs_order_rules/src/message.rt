//! The messages of the members.
use cs_base::Sequence;
use cs_order::Proposed;

/// What a member says of a slot as it enters a view.
#[derive(Drop)]
pub struct Change {
    /// The pair of greatest view and its digest that the member confirmed.
    pub prepared: Option<(u16, [u8; 32])>,
    /// The digests that the member echoed, rising, each with the greatest view in which it did.
    pub echoed: Sequence<([u8; 32], u16)>,
}

/// What a member says to the others. A view is below `VIEW_BOUND`, and a slot at most `LAST_SLOT`.
#[derive(Drop)]
pub enum OrderMessage {
    /// The leader of a view proposes an entry.
    Propose {
        slot: u64,
        view: u16,
        entry: Proposed,
    },
    /// The member took the view's proposal.
    Echo {
        slot: u64,
        view: u16,
        digest: [u8; 32],
    },
    /// The member took equal echoes of 2f+1 members.
    Confirm {
        slot: u64,
        view: u16,
        digest: [u8; 32],
    },
    /// The member enters a view.
    Change {
        slot: u64,
        view: u16,
        change: Change,
    },
    /// The member has the entry chosen.
    Done {
        slot: u64,
        entry: Proposed,
    },
}
