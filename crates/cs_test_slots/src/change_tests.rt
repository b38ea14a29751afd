//! Changes to view 1, worked by hand.
use cs_base::{Memory, Sequence};
use cs_change::Changes;
use cs_order_rules::Change;
use std::alloc::Global;
use std::test::Fail;

const ECHOED: [u8; 32] = [4; 32];

const CONFIRMED: [u8; 32] = [5; 32];

fn change(
    alloc: Global,
    prepared: Option<(u16, [u8; 32])>,
    echoed: &[([u8; 32], u16)],
) -> Result<Change, Memory> {
    let echoed = Vec::from_slice(alloc, echoed)?;
    Ok(Change {
        prepared,
        echoed: Sequence::from_vec(echoed),
    })
}

#[test]
fn digests_that_changes_make_safe(rt: HostRuntime) -> Result<(), Fail> {
    let alloc = rt.alloc();
    let mut changes = Changes::new(alloc, 1, 1)?;
    assert!(rt; changes.pair(0).is_none());
    let fresh = changes.add(0, change(alloc, Some((0, CONFIRMED)), &[])?)?;
    assert!(rt; fresh);
    changes.add(1, change(alloc, None, &[(ECHOED, 0)])?)?;
    changes.add(2, change(alloc, None, &[(ECHOED, 0)])?)?;
    assert!(rt; !changes.safe(&CONFIRMED) && !changes.safe(&ECHOED) && !changes.free());
    changes.add(3, change(alloc, None, &[])?)?;
    assert!(rt; changes.safe(&CONFIRMED) && changes.safe(&ECHOED) && changes.free());
    let again = changes.add(0, change(alloc, None, &[])?)?;
    assert!(rt; !again);
    assert_eq!(rt; changes.pair(0), Some((0, CONFIRMED)));
    assert_eq!(rt; changes.pair(1), None);
    Ok(())
}

#[test]
fn a_digest_that_was_confirmed(rt: HostRuntime) -> Result<(), Fail> {
    let alloc = rt.alloc();
    let mut changes = Changes::new(alloc, 1, 1)?;
    changes.add(1, change(alloc, Some((0, ECHOED)), &[(ECHOED, 0)])?)?;
    changes.add(2, change(alloc, None, &[(ECHOED, 0)])?)?;
    assert!(rt; !changes.safe(&ECHOED));
    changes.add(3, change(alloc, None, &[])?)?;
    assert!(rt; changes.safe(&ECHOED) && !changes.safe(&CONFIRMED) && !changes.free());
    Ok(())
}
