//! Slots worked by hand, and the counts one below and at each threshold.

use cs_base::{Memory, Sequence};
use cs_order::Proposed;
use cs_slot::Slot;
use std::alloc::Global;
use std::process::Abort;
use std::test::Fail;

/// What a member says of the one entry, in view 0.
enum Said {
    Propose,
    Echo(u16),
    Confirm(u16),
    Done(u16),
}

/// What is said, and then whether it is no repeat, whether the slot's own member is to confirm the
/// entry, and whether that is chosen.
type Row = (Said, bool, bool, bool);

/// The leader proposes, three of four echo, and three others confirm.
const AGREED: [Row; 8] = [
    (Said::Propose, true, false, false),
    (Said::Echo(0), true, false, false),
    (Said::Echo(1), true, false, false),
    (Said::Echo(1), false, false, false),
    (Said::Echo(2), true, true, false),
    (Said::Confirm(1), true, true, false),
    (Said::Confirm(2), true, true, false),
    (Said::Confirm(3), true, true, true),
];

/// What is confirmed is chosen once its entry is known.
const KNOWN_LATE: [Row; 4] = [
    (Said::Confirm(1), true, false, false),
    (Said::Confirm(2), true, false, false),
    (Said::Confirm(3), true, false, false),
    (Said::Done(2), true, false, true),
];

/// Two of four are done.
const DONE: [Row; 3] = [
    (Said::Done(2), true, false, false),
    (Said::Done(2), false, false, false),
    (Said::Done(3), true, false, true),
];

const DIGEST: [u8; 32] = [4; 32];

fn entry(alloc: Global) -> Result<Proposed, Memory> {
    let bytes = Vec::from_slice(alloc, &[4, 7])?;
    Ok(Proposed {
        digest: DIGEST,
        bytes: Sequence::from_vec(bytes),
    })
}

/// Slot 0 hears it; its own member is 0, which leads view 0.
fn hear(rt: &impl Abort, alloc: Global, slot: &mut Slot, said: &Said) -> Result<bool, Fail> {
    assert!(rt; slot.f() == 1 && slot.number() == 0 && slot.me() == 0);
    Ok(match *said {
        Said::Propose => slot.propose(0, 0, entry(alloc)?)?,
        Said::Echo(member) if member <= 3 => slot.echo(member, 0, DIGEST)?,
        Said::Confirm(member) if 0 < member && member <= 3 => slot.confirm(member, 0, DIGEST)?,
        Said::Done(member) if member <= 3 => slot.done(member, entry(alloc)?)?,
        _ => false,
    })
}

fn stands_as(rt: &impl Abort, alloc: Global, rows: &[Row]) -> Result<(), Fail> {
    let mut slot = Slot::new(alloc, 1, 0, 0)?;
    for (said, fresh, confirms, chosen) in rows {
        assert!(rt; hear(rt, alloc, &mut slot, said)? == *fresh);
        assert!(rt; slot.to_confirm().is_some() == *confirms);
        assert!(rt; slot.chosen().is_some() == *chosen);
    }
    Ok(())
}

#[test]
fn slots_of_four_members_by_hand(rt: HostRuntime) -> Result<(), Fail> {
    stands_as(&rt, rt.alloc(), &AGREED)?;
    stands_as(&rt, rt.alloc(), &KNOWN_LATE)?;
    stands_as(&rt, rt.alloc(), &DONE)
}

/// All members echo, one after the other: from 2f+1 on the last member is to confirm.
fn echoes(rt: &impl Abort, alloc: Global, f: u16) -> Result<(), Fail> {
    assert!(rt; f <= 5);
    let mut slot = Slot::new(alloc, f, 0, 3 * f)?;
    for member in 0..=3 * f {
        assert!(rt; slot.f() == f);
        slot.echo(member, 0, DIGEST)?;
        assert_eq!(rt; slot.to_confirm().is_some(), member >= 2 * f);
    }
    Ok(())
}

/// The others confirm what the leader proposed: from 2f+1 on it is chosen.
fn confirms(rt: &impl Abort, alloc: Global, f: u16) -> Result<(), Fail> {
    assert!(rt; f <= 5);
    let mut slot = Slot::new(alloc, f, 0, 3 * f)?;
    slot.propose(0, 0, entry(alloc)?)?;
    for member in 0..3 * f {
        assert!(rt; slot.f() == f && slot.me() == 3 * f);
        slot.confirm(member, 0, DIGEST)?;
        assert_eq!(rt; slot.chosen().is_some(), member >= 2 * f);
    }
    Ok(())
}

/// All members are done with an entry: from f+1 on it is chosen.
fn dones(rt: &impl Abort, alloc: Global, f: u16) -> Result<(), Fail> {
    assert!(rt; f <= 5);
    let mut slot = Slot::new(alloc, f, 0, 0)?;
    for member in 0..=3 * f {
        assert!(rt; slot.f() == f);
        slot.done(member, entry(alloc)?)?;
        assert_eq!(rt; slot.chosen().is_some(), member >= f);
    }
    Ok(())
}

#[test]
fn counts_one_below_and_at_each_threshold(rt: HostRuntime) -> Result<(), Fail> {
    for f in 0..=5 {
        echoes(&rt, rt.alloc(), f)?;
        confirms(&rt, rt.alloc(), f)?;
        dones(&rt, rt.alloc(), f)?;
    }
    Ok(())
}
