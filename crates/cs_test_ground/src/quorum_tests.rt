//! A tally of marks, two of them merged, and what a tally is.
use cs_quorum::Tally;
use std::test::Fail;

const _: () = prove!(size_of::<Tally>() <= 4);

#[test]
fn members_are_counted_once(rt: HostRuntime) -> Result<(), Fail> {
    let mut here = Tally::new(16);
    // A copy: both are used from here on.
    let mut there = here;
    assert!(rt; here.mark(3) && here.mark(15) && !here.mark(3));
    assert!(rt; there.mark(15) && there.mark(0));
    assert_eq!(rt; (here.count(), there.count()), (2, 2));
    assert_eq!(rt; here.merged(&there), 3);
    Ok(())
}
