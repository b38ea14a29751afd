//! A coin that is looked up, over a link in memory.
use crate::cases::{CLIENT, Case, Word, keys_of, make_case, sealed};
use cs_base::{Key, NodeId, Sequence, print_bytes};
use cs_io::{MemInput, MemLink, Until};
use cs_show::{Ending, Looker, Lookup, look, read_key};
use cs_test_samples::coin;
use cs_tx_value::Encoded;
use std::alloc::Global;
use std::process::Abort;
use std::test::Fail;

// Which node of shard 0 says what.
type Said = (u16, Word);

// A link by which these are said, behind a tick.
fn link_of(rt: &impl Abort, alloc: Global, case: &Case, said: &[Said]) -> Result<MemLink, Fail> {
    let mut inputs = Vec::new(alloc);
    inputs.push(MemInput::Tick)?;
    for (index, word) in said {
        let from = NodeId {
            shard: 0,
            index: *index,
        };
        let bytes = sealed(rt, alloc, case, from, *word)?;
        inputs.push(MemInput::Datagram(Sequence::from_vec(bytes)))?;
    }
    Ok(MemLink::new(alloc, inputs, Vec::new(alloc)))
}

// What is told of the coin, and how many datagrams were offered.
fn told(
    rt: &impl Abort,
    alloc: Global,
    case: &Case,
    said: &[Said],
    until: Until,
) -> Result<(String, usize), Fail> {
    let lookup = Lookup {
        config: case.config,
        keys: keys_of(alloc, &case.config, CLIENT)?,
        key: Key::Object(case.name),
    };
    let looker = Looker::start(alloc, lookup)?;
    let mut link = link_of(rt, alloc, case, said)?;
    let line = match look(alloc, looker, &mut link, until) {
        Ending::Tells(line) => String::from_str(alloc, line.as_str())?,
        Ending::Open => String::from_str(alloc, "open")?,
        Ending::LinkFault => String::from_str(alloc, "link fault")?,
        Ending::Memory => String::from_str(alloc, "memory")?,
    };
    Ok((line, link.offered().len()))
}

#[test]
fn a_coin_is_shown_that_two_of_four_tell(rt: HostRuntime) -> Result<(), Fail> {
    let alloc = rt.alloc();
    let four = make_case(&rt, alloc, (1, 1), &[2, 3], &[])?;
    let object = coin(alloc, 5)?;
    assert!(rt; object.fits());
    let bytes = object.to_bytes(alloc)?;
    let hex = print_bytes(alloc, &bytes)?;
    let active = format!(in alloc; "active {hex}\n")?;
    let said = [
        (0, Word::Coin(9)),
        (1, Word::Dummy(0, 1)),
        (1, Word::Coin(5)),
        (1, Word::Coin(5)),
        (0, Word::Coin(5)),
        (2, Word::NoCoin),
    ];
    let (line, offered) = told(&rt, alloc, &four, said.as_slice(), Until::Turns(9))?;
    assert_eq!(rt; line.as_str(), active.as_str());
    assert_eq!(rt; offered, 4);
    // The last word counts, and before the fifth no two have one.
    let (line, _) = told(&rt, alloc, &four, said.as_slice(), Until::Turns(5))?;
    assert_eq!(rt; line.as_str(), "open");
    Ok(())
}

#[test]
fn a_coin_that_none_knows_is_unknown(rt: HostRuntime) -> Result<(), Fail> {
    let alloc = rt.alloc();
    let one = make_case(&rt, alloc, (1, 0), &[2, 3], &[])?;
    let said = [(0, Word::NoCoin)];
    let (line, offered) = told(&rt, alloc, &one, said.as_slice(), Until::Ticks(2))?;
    assert_eq!(rt; line.as_str(), "unknown\n");
    assert_eq!(rt; offered, 1);
    let said = [(0, Word::SharedCoin(5))];
    let (line, _) = told(&rt, alloc, &one, said.as_slice(), Until::Ticks(2))?;
    assert_eq!(rt; line.as_str(), "shared 1\n");
    // The link has nothing left.
    let (line, _) = told(&rt, alloc, &one, &[], Until::Ticks(2))?;
    assert_eq!(rt; line.as_str(), "open");
    Ok(())
}

#[test]
fn keys_are_read(rt: HostRuntime) -> Result<(), Fail> {
    assert_eq!(rt;
        read_key(b"65535:18446744073709551615"),
        Some(Key::Dummy(65535, 18446744073709551615))
    );
    assert_eq!(rt; read_key(b"0:0"), Some(Key::Dummy(0, 0)));
    for word in [
        b"65536:0".as_slice(),
        b"0:18446744073709551616".as_slice(),
        b"00:0".as_slice(),
        b"0:01".as_slice(),
        b"+0:0".as_slice(),
        b"0:0:0".as_slice(),
        b"0".as_slice(),
        b":".as_slice(),
        b"".as_slice(),
    ] {
        assert_eq!(rt; read_key(word), None);
    }
    let digits = b"1010101010101010101010101010101010101010101010101010101010101010";
    assert_eq!(rt; read_key(digits), Some(Key::Object([16; 32])));
    Ok(())
}
