//! Whether a message has a body.
ghost use Rattle.std.specs.Prelude.{◌≡◌, ◌<◌, ◌↔◌, true, None, IsTrue};
ghost use Rattle.cs_tx_value.specs.Object.{DigestFits};
ghost use Rattle.cs_wire_message.specs.Message.{IsSlot, IsView, is_after_last, Rise, PreparedFits, ChangeFits, StepFits, AskedKeyFits, AskedPlaceFits, MessageFits};

use crate::change::Change;
use crate::message::Message;
use crate::rising::comes_after;
use cs_base::{Key, LAST_SLOT, LAST_VIEW, MOST_ACTIONS, MOST_ECHOED, Version};
use cs_tx_types::Versioned;
use cs_tx_value::{Digest, Encoded};

fn is_slot(slot: u64) -> bool
    ensures { IsTrue result ↔ IsSlot slot }
{
    slot <= LAST_SLOT
}

fn is_view(view: u16) -> bool
    ensures { IsTrue result ↔ IsView view }
{
    view <= LAST_VIEW
}

// Whether an echo in an earlier view may stand behind the last digest.
fn may_stand(view: u16, last: &Option<Digest>, echo: &(Digest, u16)) -> bool
    ensures { IsTrue result ↔
        ((DigestFits echo.now.0 × (is_after_last last.now echo.now.0 ≡ true)) × (echo.now.1 < view)) }
{
    echo.0.fits() && comes_after(last, &echo.0) && echo.1 < view
}

fn rise(view: u16, echoed: &[(Digest, u16)]) -> bool
    ensures { IsTrue result ↔ Rise view None echoed.now }
{
    let mut last = None;
    for echo in echoed {
        if !may_stand(view, &last, echo) {
            return false;
        }
        last = Some(echo.0);
    }
    true
}

fn prepared_fits(view: u16, prepared: &Option<(u16, Digest)>) -> bool
    ensures { IsTrue result ↔ PreparedFits view prepared.now }
{
    match prepared {
        None => true,
        Some(pair) => pair.0 < view && pair.1.fits(),
    }
}

fn change_fits(view: u16, change: &Change) -> bool
    ensures { IsTrue result ↔ ChangeFits view change.now }
{
    if change.echoed.len() > MOST_ECHOED as usize {
        return false;
    }
    prepared_fits(view, &change.prepared) && rise(view, change.echoed.as_slice())
}

fn step_fits(slot: u64, view: u16, digest: &Digest) -> bool
    ensures { IsTrue result ↔ StepFits slot view digest.now }
{
    is_slot(slot) && is_view(view) && digest.fits()
}

fn asked_fits(key: &Option<Key>) -> bool
    ensures { IsTrue result ↔ AskedKeyFits key.now }
{
    match key {
        None => true,
        Some(key) => key.fits(),
    }
}

fn asked_place_fits(place: u8, version: Version) -> bool
    ensures { IsTrue result ↔ AskedPlaceFits version place }
{
    match version {
        Version::One => place == 0,
        Version::Two => place < MOST_ACTIONS,
    }
}

impl Message {
    /// Whether the message is within all limits of a version, so that it has a body and can be
    /// sealed.
    pub fn fits(&self, version: Version) -> bool
        ensures { IsTrue result ↔ MessageFits version self.now }
    {
        match self {
            Message::Submit(session) => session.fits(),
            Message::Propose { slot, view, entry } => {
                is_slot(*slot) && is_view(*view) && entry.is_within(version)
            }
            Message::Echo { slot, view, digest } => step_fits(*slot, *view, digest),
            Message::Confirm { slot, view, digest } => step_fits(*slot, *view, digest),
            Message::Change { slot, view, change } => {
                is_slot(*slot) && is_view(*view) && *view >= 1 && change_fits(*view, change)
            }
            Message::Voted { session, .. } => session.fits(),
            Message::Decided { session, .. } => session.fits(),
            Message::Want { slot } => is_slot(*slot),
            Message::Done { slot, entry } => is_slot(*slot) && entry.is_within(version),
            Message::Ask(key) => asked_fits(key),
            Message::Told { key, state } => key.fits() && state.fits(),
            Message::Head(checkpoint) => checkpoint.is_within(version),
            Message::AskProof { slot, place } => {
                is_slot(*slot) && asked_place_fits(*place, version)
            }
            Message::Proof(proof) => proof.is_within(version),
        }
    }
}
