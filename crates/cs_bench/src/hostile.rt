//! A shard of 16 members, of which five liars fill all views of its open slot and of those that may be told ahead.
use crate::slots::{Shard, entry_of, take};
use cs_base::{Memory, SLOTS_AHEAD, Sequence, VIEW_BOUND};
use cs_log::SlotOrder;
use cs_order::{Order, Outgoing};
use cs_order_rules::{Change, OrderMessage};
use std::alloc::Global;
use std::time::Instant;

/// How many members may lie.
const F: u16 = 5;

/// The members that tell the truth: just enough.
const HONEST: u16 = 11;

/// The slots that honest members lead in view 0, so that a slot is chosen with no view entered.
const MOST_SLOTS: u32 = 11;

/// What kinds of messages a liar sends in each view. Its proposals come where it leads, but in view 0, where what it
/// proposes might be chosen.
const KINDS: u8 = 4;

/// A shard in which the liars say nothing to one another, and keep silent but for what `fill` gives.
fn shard(alloc: Global) -> Result<Shard, Memory> {
    Shard::with_speakers(alloc, F, HONEST)
}

/// Each liar sends each honest member one message of each kind in each of so many views of each slot, all of
/// different digests; after each the member does what it may: how many messages were taken.
fn fill(alloc: Global, shard: &mut Shard, views: u16) -> Result<u64, Memory> {
    let mut taken = 0u64;
    let mut out = Vec::new(alloc);
    for me in 0..HONEST {
        if let Some(order) = shard.order(me) {
            taken = taken.saturating_add(fill_one(alloc, order, views, &mut out)?);
        }
    }
    Ok(taken)
}

fn fill_one(
    alloc: Global,
    order: &mut SlotOrder,
    views: u16,
    out: &mut Vec<Outgoing<OrderMessage>>,
) -> Result<u64, Memory> {
    let mut taken = 0u64;
    for slot in 0..SLOTS_AHEAD + 1 {
        for view in 0..views.min(VIEW_BOUND) {
            taken = taken.saturating_add(lie(alloc, order, slot, view, out)?);
        }
    }
    Ok(taken)
}

/// All that the liars say of a view.
fn lie(
    alloc: Global,
    order: &mut SlotOrder,
    slot: u64,
    view: u16,
    out: &mut Vec<Outgoing<OrderMessage>>,
) -> Result<u64, Memory> {
    let mut taken = 0u64;
    for liar in HONEST..3 * F + 1 {
        for kind in 0..KINDS {
            if let Some(message) = lie_of(alloc, slot, view, liar, kind)? {
                take(alloc, order, liar, message, out)?;
                taken = taken.saturating_add(1);
            }
        }
    }
    Ok(taken)
}

/// What a liar says of a kind, where it may say that.
fn lie_of(
    alloc: Global,
    slot: u64,
    view: u16,
    liar: u16,
    kind: u8,
) -> Result<Option<OrderMessage>, Memory> {
    let digest = digest_of(slot, view, liar, kind);
    match kind {
        0 if view > 0 && leads(slot, view, liar) => Ok(Some(OrderMessage::Propose {
            slot,
            view,
            entry: entry_of(alloc, digest)?,
        })),
        1 => Ok(Some(OrderMessage::Echo { slot, view, digest })),
        2 => Ok(Some(OrderMessage::Confirm { slot, view, digest })),
        3 if view > 0 => Ok(Some(OrderMessage::Change {
            slot,
            view,
            change: change_of(alloc, view, digest)?,
        })),
        _ => Ok(None),
    }
}

fn leads(slot: u64, view: u16, member: u16) -> bool {
    let place = slot.saturating_add(u64::from(view));
    place % (3 * u64::from(F) + 1) == u64::from(member)
}

/// A change that tells of a pair, and of one echo.
fn change_of(alloc: Global, view: u16, digest: [u8; 32]) -> Result<Change, Memory> {
    let last = view.saturating_sub(1);
    let mut echoed = Sequence::new(alloc);
    echoed.push((digest, last))?;
    Ok(Change {
        prepared: Some((last, digest)),
        echoed,
    })
}

/// A digest of which no other message tells.
fn digest_of(slot: u64, view: u16, liar: u16, kind: u8) -> [u8; 32] {
    let mut digest = [0; 32];
    let view = view.to_be_bytes();
    let liar = liar.to_be_bytes();
    digest[0] = kind;
    digest[1] = slot.to_be_bytes()[7];
    digest[2] = view[0];
    digest[3] = view[1];
    digest[4] = liar[1];
    digest[31] = 1;
    digest
}

/// What was measured: how many messages of liars were taken, and the nanoseconds for that, for the slots that were
/// chosen then, and for the same slots where the liars were silent.
#[derive(Clone, Copy)]
pub struct Times {
    pub messages: u64,
    pub filling: u64,
    pub filled: u64,
    pub silent: u64,
}

/// Fills so many views and chooses the slots that honest members lead in view 0, beside a shard whose liars are
/// silent. There is nothing where a slot wasn't chosen.
pub fn measure(rt: &HostRuntime, views: u16) -> Result<Option<Times>, Memory> {
    let alloc = rt.alloc();
    let mut quiet = shard(alloc)?;
    let mut loud = shard(alloc)?;
    let begun = Instant::now(rt).ok();
    let messages = fill(alloc, &mut loud, views)?;
    let filling = nanoseconds(rt, begun);
    let silent = choose_all(rt, &mut quiet)?;
    let filled = choose_all(rt, &mut loud)?;
    if quiet.chosen() != MOST_SLOTS || loud.chosen() != MOST_SLOTS {
        return Ok(None);
    }
    Ok(Some(Times {
        messages,
        filling,
        filled,
        silent,
    }))
}

/// Chooses the slots that honest members lead in view 0: how long that took.
fn choose_all(rt: &HostRuntime, shard: &mut Shard) -> Result<u64, Memory> {
    let begun = Instant::now(rt).ok();
    for number in 0..MOST_SLOTS {
        shard.choose(rt.alloc(), number)?;
    }
    Ok(nanoseconds(rt, begun))
}

/// The nanoseconds since then, or 0 where there is no clock.
fn nanoseconds(rt: &HostRuntime, begun: Option<Instant>) -> u64 {
    let Some(begun) = begun else {
        return 0;
    };
    match begun.elapsed(rt) {
        Ok(time) => u64::try_from(time.as_nanos()).unwrap_or(u64::MAX),
        Err(_) => 0,
    }
}
