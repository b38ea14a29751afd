//! Roots of leaves that are put one at a time, beside roots that others computed and the root from
//! scratch.
ghost use Rattle.std.specs.Prelude.{◌≡◌, ◌<◌};

use cs_base::{Memory, print_bytes};
use cs_merkle::root;
use cs_merkle_kept::*;
use std::alloc::Global;
use std::marker::Brand;
use std::sync::ledger::{Blank, Ledger};
use std::test::Fail;

// The first leaves of the reference implementation of RFC 6962.
const LEAVES: [&[u8]; 7] = [
    b"",
    b"\x00",
    b"\x10",
    b"\x20\x21",
    b"\x30\x31",
    b"\x40\x41\x42\x43",
    b"\x50\x51\x52\x53\x54\x55\x56\x57",
];

// The roots over none and over all of them.
const EMPTY_ROOT: &str = "e3b0c44298fc1c149afbf4c8996fb92427ae41e4649b934ca495991b7852b855";

const ROOT: &str = "ddb89be403809e325750d3d263cd78929c2942b7942a34b77e122c9594a74c8c";

// The root from scratch over those that are there.
fn root_of_those(alloc: Global, there: &[bool; 7]) -> Result<Digest, Memory> {
    let mut leaves = Vec::new(alloc);
    for place in 0..7 {
        if there[place] {
            leaves.push(Vec::from_slice(alloc, LEAVES[place])?)?;
        }
    }
    Ok(root(leaves.as_slice()))
}

// Puts each under its place, in this order. None where a root isn't that from scratch, or a key
// isn't told to be new.
fn put_each<L: Ledger>(
    alloc: Global,
    order: &[usize; 7],
    steps: &mut Steps<L>,
) -> Result<Option<Incremental>, Memory> {
    let mut tree = Incremental::new(alloc);
    let mut there = [false; 7];
    for place in order {
        if *place >= 7 || !tree.put(alloc, &[*place as u8], LEAVES[*place], steps)? {
            return Ok(None);
        }
        there[*place] = true;
        if tree.root() != root_of_those(alloc, &there)? {
            return Ok(None);
        }
    }
    Ok(Some(tree))
}

fn any_order<L: Ledger>(alloc: Global, blank: Blank) -> Result<bool, Memory>
    requires name { blank.name ≡ L.name }
    requires parts { blank.parts ≡ L.parts }
    requires some { 0 < L.parts }
{
    let mut steps: Steps<L> = Steps::new(blank);
    let Some(mut tree) = put_each(alloc, &[3, 0, 6, 1, 5, 2, 4], &mut steps)? else {
        return Ok(false);
    };
    let again = tree.put(alloc, &[2], LEAVES[2], &mut steps)?;
    Ok(!again && print_bytes(alloc, &tree.root())?.as_str() == ROOT)
}

fn any_order_counted(alloc: Global) -> Result<bool, Memory> {
    any_order::<Brand>(alloc, Blank::new(1))
}

#[test]
fn root_kept_in_any_order(rt: HostRuntime) -> Result<(), Fail> {
    let none = print_bytes(rt.alloc(), &Incremental::new(rt.alloc()).root())?;
    assert_eq!(rt; none.as_str(), EMPTY_ROOT);
    assert!(rt; any_order_counted(rt.alloc())?);
    Ok(())
}
