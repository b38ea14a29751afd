//! The rules against the plain program.
use crate::plain::{Plain, Text, Thing, View, hashlock_says, sum_says};
use crate::traces::trace_of;
use cs_approve::Book;
use cs_base::{Memory, Sequence};
use cs_native::RuledBook;
use cs_test_samples::Draws;
use cs_tx::{Digest, Encoded, Judge, Trace, Tx};
use sha2::{Digest as Hasher, Sha256};
use std::alloc::Global;
use std::process::Abort;
use std::test::Fail;

/// How many views are drawn for each rule, and how many of these at least are approved.
const VIEWS: u32 = 400;

const APPROVED: u32 = 40;

/// The rules alone.
pub fn rules(alloc: Global) -> Result<RuledBook, Memory> {
    match Book::new(alloc, &[]) {
        Ok(book) => Ok(RuledBook::new(book)),
        Err(_) => Err(Memory),
    }
}

/// Whether a transaction of these traces, which fits, is approved.
pub fn says(
    rt: &impl Abort,
    book: &RuledBook,
    alloc: Global,
    traces: Sequence<Trace>,
) -> Result<bool, Memory> {
    let tx = Tx { traces };
    assert!(rt; tx.fits());
    book.approves(alloc, &tx)
}

// Of a transaction of one trace.
fn says_of(
    rt: &impl Abort,
    book: &RuledBook,
    alloc: Global,
    contract: Digest,
    view: &View,
) -> Result<bool, Memory> {
    let mut traces = Sequence::new(alloc);
    traces.push(trace_of(alloc, contract, view)?)?;
    says(rt, book, alloc, traces)
}

fn text(draws: &mut Draws) -> Text {
    match draws.below(5) {
        0 => Text::Empty,
        1 => Text::HashOfEmpty,
        2 => Text::Abc,
        3 => Text::HashOfAbc,
        _ => Text::Cut,
    }
}

// The number 7, mostly.
fn number(draws: &mut Draws) -> Plain {
    match draws.below(8) {
        0 => Plain::Number(-7),
        1 => Plain::Said(text(draws)),
        _ => Plain::Number(7),
    }
}

fn open(draws: &mut Draws) -> Thing {
    Thing {
        type_name: if draws.below(12) == 0 {
            "purse"
        } else {
            "open"
        },
        first: number(draws),
        second: if draws.below(12) == 0 {
            Some(number(draws))
        } else {
            None
        },
    }
}

fn lock(draws: &mut Draws, hash: Text) -> Thing {
    let hash = if draws.below(8) == 0 {
        text(draws)
    } else {
        hash
    };
    Thing {
        type_name: if draws.below(12) == 0 { "open" } else { "lock" },
        first: Plain::Said(hash),
        second: if draws.below(12) == 0 {
            None
        } else {
            Some(number(draws))
        },
    }
}

// Of a call of `hashlock`, mostly a right one.
fn hashlock_view(alloc: Global, draws: &mut Draws) -> Result<View, Memory> {
    let (given, hash) = match draws.below(5) {
        0 => (Text::Empty, Text::HashOfEmpty),
        1 => (Text::Abc, Text::HashOfAbc),
        2 => (Text::HashOfEmpty, Text::HashOfEmpty),
        3 => (Text::HashOfAbc, Text::HashOfAbc),
        _ => (Text::Cut, Text::Cut),
    };
    let locking = given == hash;
    let mut inputs = Vec::new(alloc);
    let mut outputs = Vec::new(alloc);
    let mut parameters = Vec::new(alloc);
    inputs.push(if locking {
        open(draws)
    } else {
        lock(draws, hash)
    })?;
    outputs.push(if locking {
        lock(draws, hash)
    } else {
        open(draws)
    })?;
    parameters.push(Plain::Said(given))?;
    if draws.below(12) == 0 {
        outputs.push(open(draws))?;
    }
    if draws.below(12) == 0 {
        parameters.push(number(draws))?;
    }
    Ok(View {
        method: if locking != (draws.below(12) == 0) {
            "lock"
        } else {
            "claim"
        },
        inputs,
        reads: draws.below(12) == 0,
        parameters,
        outputs,
        returns: draws.below(12) == 0,
        stands: draws.below(12) == 0,
    })
}

fn amount(draws: &mut Draws) -> i64 {
    match draws.below(12) {
        0 => i64::MAX,
        1 => -1,
        2 | 3 | 4 => 2,
        5 | 6 => 0,
        _ => 1,
    }
}

fn purse(draws: &mut Draws) -> Thing {
    Thing {
        type_name: if draws.below(24) == 0 {
            "coin"
        } else {
            "purse"
        },
        first: Plain::Number(amount(draws)),
        second: Some(Plain::Number(if draws.below(3) == 0 { 1 } else { 0 })),
    }
}

// As much as may be.
const RICH: Thing = Thing {
    type_name: "purse",
    first: Plain::Number(i64::MAX),
    second: Some(Plain::Number(0)),
};

// Now and then rich ones alone, whose sum is beyond 64 bits.
fn purses(alloc: Global, draws: &mut Draws) -> Result<Vec<Thing>, Memory> {
    let mut purses = Vec::new(alloc);
    let rich = draws.below(4) == 0;
    for _ in 0..draws.below(4) {
        purses.push(if rich { RICH } else { purse(draws) })?;
    }
    Ok(purses)
}

// Of a call of `sum`: purses of two kinds, of which the outputs now and then are the inputs.
fn sum_view(alloc: Global, draws: &mut Draws) -> Result<View, Memory> {
    let inputs = purses(alloc, draws)?;
    let outputs = if draws.below(3) == 0 {
        Vec::from_slice(alloc, inputs.as_slice())?
    } else {
        purses(alloc, draws)?
    };
    let mut parameters = Vec::new(alloc);
    if draws.below(12) == 0 {
        parameters.push(Plain::Number(1))?;
    }
    Ok(View {
        method: if draws.below(12) == 0 { "lock" } else { "move" },
        inputs,
        reads: draws.below(4) == 0,
        parameters,
        outputs,
        returns: draws.below(12) == 0,
        stands: draws.below(4) == 0,
    })
}

#[test]
fn hashlock_says_what_the_plain_program_says(rt: HostRuntime) -> Result<(), Fail> {
    let alloc = rt.alloc();
    let book = rules(alloc)?;
    let mut draws = Draws::new(57);
    let mut approved = 0u32;
    for _ in 0..VIEWS {
        let view = hashlock_view(alloc, &mut draws)?;
        let yes = says_of(&rt, &book, alloc, Sha256::digest(b"native:hashlock"), &view)?;
        assert_eq!(rt; yes, hashlock_says(&view));
        approved = approved.saturating_add(u32::from(yes));
    }
    assert!(rt; approved >= APPROVED);
    Ok(())
}

#[test]
fn sum_says_what_the_plain_program_says(rt: HostRuntime) -> Result<(), Fail> {
    let alloc = rt.alloc();
    let book = rules(alloc)?;
    let mut draws = Draws::new(57);
    let mut approved = 0u32;
    for _ in 0..VIEWS {
        let view = sum_view(alloc, &mut draws)?;
        let yes = says_of(&rt, &book, alloc, Sha256::digest(b"native:sum"), &view)?;
        assert_eq!(rt; yes, sum_says(&view));
        approved = approved.saturating_add(u32::from(yes));
    }
    assert!(rt; approved >= APPROVED);
    Ok(())
}

#[test]
fn an_id_of_no_rule_is_asked_of_the_book(rt: HostRuntime) -> Result<(), Fail> {
    let alloc = rt.alloc();
    let book = rules(alloc)?;
    let mut draws = Draws::new(57);
    for _ in 0..VIEWS {
        let view = sum_view(alloc, &mut draws)?;
        assert!(rt; !says_of(&rt, &book, alloc, Sha256::digest(b"sum"), &view)?);
    }
    Ok(())
}

#[test]
fn each_trace_is_asked_of_its_own_rule(rt: HostRuntime) -> Result<(), Fail> {
    let alloc = rt.alloc();
    let book = rules(alloc)?;
    let mut draws = Draws::new(57);
    for _ in 0..VIEWS {
        let first = hashlock_view(alloc, &mut draws)?;
        let second = sum_view(alloc, &mut draws)?;
        let mut traces = Sequence::new(alloc);
        traces.push(trace_of(alloc, Sha256::digest(b"native:hashlock"), &first)?)?;
        traces.push(trace_of(alloc, Sha256::digest(b"native:sum"), &second)?)?;
        let both = hashlock_says(&first) && sum_says(&second);
        assert!(rt; says(&rt, &book, alloc, traces)? == both);
    }
    Ok(())
}
