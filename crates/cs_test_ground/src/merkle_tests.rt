//! Roots and paths that others computed.
use cs_base::{Memory, print_bytes};
use cs_merkle::*;
use std::alloc::Global;
use std::test::Fail;

// The leaves of the reference implementation of RFC 6962.
const LEAVES: [&[u8]; 8] = [
    b"",
    b"\x00",
    b"\x10",
    b"\x20\x21",
    b"\x30\x31",
    b"\x40\x41\x42\x43",
    b"\x50\x51\x52\x53\x54\x55\x56\x57",
    b"\x60\x61\x62\x63\x64\x65\x66\x67\x68\x69\x6a\x6b\x6c\x6d\x6e\x6f",
];

// The roots over none of them, over the first, over the first two, and so on.
const ROOTS: [&str; 9] = [
    "e3b0c44298fc1c149afbf4c8996fb92427ae41e4649b934ca495991b7852b855",
    "6e340b9cffb37a989ca544e6bb780a2c78901d3fb33738768511a30617afa01d",
    "fac54203e7cc696cf0dfcb42c92a1d9dbaf70ad9e621f4bd8d98662f00e3c125",
    "aeb6bcfe274b70a14fb067a5e5578264db0fa9b51af5e0ba159158f329e06e77",
    "d37ee418976dd95753c1c73862b9398fa2a2cf9b4ff0fdfe8b30cd95209614b7",
    "4e3bbb1f7b478dcfe71fb631631519a3bca12c9aefca1612bfce4c13a86264d4",
    "76e67dadbcdf1e10e1b74ddc608abd2f98dfb16fbce75277b5232a127f2087ef",
    "ddb89be403809e325750d3d263cd78929c2942b7942a34b77e122c9594a74c8c",
    "5dc9da79a70659a9ad559cb701ded9a2ab9d823aad2f4960cfe370eff4604328",
];

fn first_leaves(alloc: Global, count: usize) -> Result<Vec<Vec<u8>>, Memory> {
    let mut leaves = Vec::new(alloc);
    for leaf in LEAVES.iter().take(count) {
        leaves.push(Vec::from_slice(alloc, leaf)?)?;
    }
    Ok(leaves)
}

#[test]
fn roots_of_the_reference_leaves(rt: HostRuntime) -> Result<(), Fail> {
    for (count, expected) in ROOTS.iter().enumerate() {
        let leaves = first_leaves(rt.alloc(), count)?;
        let text = print_bytes(rt.alloc(), &root(leaves.as_slice()))?;
        assert_eq!(rt; text.as_str(), *expected, "over {count} leaves");
    }
    Ok(())
}

#[test]
fn merkle_vectors(rt: HostRuntime) -> Result<(), Fail> {
    let one = first_leaves(rt.alloc(), 1)?;
    assert!(rt; path(rt.alloc(), one.as_slice(), 0)?.is_empty());

    let two = first_leaves(rt.alloc(), 2)?;
    let three = first_leaves(rt.alloc(), 3)?;
    let last = path(rt.alloc(), three.as_slice(), 2)?;
    assert_eq!(rt; last.as_slice(), [root(two.as_slice())].as_slice());

    let seven = first_leaves(rt.alloc(), 7)?;
    assert_eq!(rt; path(rt.alloc(), seven.as_slice(), 0)?.len(), 3);
    assert_eq!(rt;
        path(rt.alloc(), seven.as_slice(), 7).err(),
        Some(PathError::NoLeaf)
    );
    let mut proof = path(rt.alloc(), seven.as_slice(), 6)?;
    assert_eq!(rt; proof.len(), 2);
    let top = root(seven.as_slice());
    assert!(rt; verify(&top, 7, 6, LEAVES[6], proof.as_slice()));
    proof.push(top)?;
    assert!(rt; !verify(&top, 7, 6, LEAVES[6], proof.as_slice()));
    Ok(())
}
