//! Every case of a Prepare, and of the Decide that follows, against each state of its keys and each
//! kind of book to which calls lead.
use crate::calls::{decided, prepared};
use cs_base::{Config, Key, Memory};
use cs_table::Table;
use cs_test_samples::{Transfer, coin, spend};
use cs_tx::{Digest, Encoded, Session, Vote};
use cs_tx_types::Effect;
use std::alloc::Global;
use std::process::Abort;
use std::test::Fail;

/// What stands under a key.
#[derive(Clone, Copy, PartialEq, Eq)]
enum Holds {
    Nothing,
    TheCoin,
    AnotherCoin,
    Locked,
    Read,
    Used,
}

const ANCHORS: [Holds; 6] = [
    Holds::Nothing,
    Holds::TheCoin,
    Holds::AnotherCoin,
    Holds::Locked,
    Holds::Read,
    Holds::Used,
];

const OTHERS: [Holds; 5] = [
    Holds::Nothing,
    Holds::TheCoin,
    Holds::AnotherCoin,
    Holds::Locked,
    Holds::Read,
];

/// What is in the book of the anchor.
#[derive(Clone, Copy, PartialEq, Eq)]
enum Book {
    Empty,
    ItsAbort,
    ItsCommit,
    Worn,
}

const BOOKS: [Book; 4] = [Book::Empty, Book::ItsAbort, Book::ItsCommit, Book::Worn];

/// What stands under the three keys of the session, and in the book of the first.
#[derive(Clone, Copy)]
struct Case {
    anchor: Holds,
    input: Holds,
    reference: Holds,
    book: Book,
}

const ANCHOR: Digest = [1; 32];

const INPUT: Digest = [2; 32];

const REFERENCE: Digest = [3; 32];

/// The coin that a session uses up as it reads the coin of this name.
fn of_reader(name: Digest) -> Digest {
    [10 + name[0] % 10; 32]
}

/// A session that uses up two coins of 5 and reads a third.
fn session(alloc: Global) -> Result<Session, Memory> {
    let mut transfer = Transfer::new(alloc);
    transfer.inputs.push((ANCHOR, coin(alloc, 5)?))?;
    transfer.inputs.push((INPUT, coin(alloc, 5)?))?;
    transfer.references.push((REFERENCE, coin(alloc, 5)?))?;
    transfer.into_session(alloc, 1)
}

fn worth(holds: Holds) -> i64 {
    match holds {
        Holds::AnotherCoin => 6,
        Holds::Nothing | Holds::TheCoin | Holds::Locked | Holds::Read | Holds::Used => 5,
    }
}

/// The key of a coin, which is another where the session's is to have none.
fn key(name: u8, holds: Holds) -> Key {
    let name = if holds == Holds::Nothing {
        90 + name % 4
    } else {
        name
    };
    Key::Object([name; 32])
}

fn begun(rt: &impl Abort, alloc: Global, case: &Case) -> Result<Table, Fail> {
    let anchor = coin(alloc, worth(case.anchor))?;
    let input = coin(alloc, worth(case.input))?;
    let reference = coin(alloc, worth(case.reference))?;
    let (of_anchor, of_input, of_reference) = (coin(alloc, 5)?, coin(alloc, 5)?, coin(alloc, 5)?);
    assert!(rt; anchor.fits() && input.fits() && reference.fits());
    assert!(rt; of_anchor.fits() && of_input.fits() && of_reference.fits());
    let objects = [
        (key(1, case.anchor), anchor),
        (key(2, case.input), input),
        (key(3, case.reference), reference),
        (Key::Object(of_reader(ANCHOR)), of_anchor),
        (Key::Object(of_reader(INPUT)), of_input),
        (Key::Object(of_reader(REFERENCE)), of_reference),
    ];
    let config = Config::new(1, 0, 0).expect(rt, "a configuration");
    Ok(Table::genesis(alloc, config, 0, &objects)?)
}

/// Another session reads the coin of this name.
fn read(rt: &impl Abort, alloc: Global, table: &mut Table, name: Digest) -> Result<(), Fail> {
    let mut transfer = Transfer::new(alloc);
    transfer.inputs.push((of_reader(name), coin(alloc, 5)?))?;
    transfer.references.push((name, coin(alloc, 5)?))?;
    let reader = transfer.into_session(alloc, 2)?;
    assert!(rt; prepared(rt, alloc, table, &reader)? == Vote::Commit);
    Ok(())
}

/// Another session reads or locks the coin of this name, or uses it up.
fn hold(
    rt: &impl Abort,
    alloc: Global,
    table: &mut Table,
    name: Digest,
    holds: Holds,
) -> Result<(), Fail> {
    if holds == Holds::Read {
        return read(rt, alloc, table, name);
    }
    let other = spend(alloc, name, 5, &[], 2)?;
    if holds == Holds::Locked || holds == Holds::Used {
        assert!(rt; prepared(rt, alloc, table, &other)? == Vote::Commit);
    }
    if holds == Holds::Used {
        decided(rt, alloc, table, &other, Vote::Commit)?;
    }
    Ok(())
}

/// The session aborts, also where its keys are free, since another has its anchor in hand.
fn abort(
    rt: &impl Abort,
    alloc: Global,
    table: &mut Table,
    session: &Session,
    worth: i64,
) -> Result<(), Fail> {
    let other = spend(alloc, ANCHOR, worth, &[], 3)?;
    prepared(rt, alloc, table, &other)?;
    assert!(rt; prepared(rt, alloc, table, session)? == Vote::Abort);
    decided(rt, alloc, table, &other, Vote::Abort)?;
    Ok(())
}

/// So many sessions abort that the book of the anchor has no place left.
fn wear_out(rt: &impl Abort, alloc: Global, table: &mut Table) -> Result<(), Fail> {
    for number in 0..1024 {
        let other = spend(alloc, ANCHOR, 7, &[], number)?;
        assert!(rt; prepared(rt, alloc, table, &other)? == Vote::Abort);
    }
    Ok(())
}

/// A table in which the case holds.
fn table_of(rt: &impl Abort, alloc: Global, session: &Session, case: &Case) -> Result<Table, Fail> {
    let mut table = begun(rt, alloc, case)?;
    if case.book == Book::ItsCommit {
        assert!(rt; prepared(rt, alloc, &mut table, session)? == Vote::Commit);
        decided(rt, alloc, &mut table, session, Vote::Abort)?;
    }
    hold(rt, alloc, &mut table, ANCHOR, case.anchor)?;
    hold(rt, alloc, &mut table, INPUT, case.input)?;
    hold(rt, alloc, &mut table, REFERENCE, case.reference)?;
    match case.book {
        Book::Empty | Book::ItsCommit => {}
        Book::ItsAbort => abort(rt, alloc, &mut table, session, worth(case.anchor))?,
        Book::Worn => wear_out(rt, alloc, &mut table)?,
    }
    Ok(table)
}

/// What else the session names is there for it: a coin that it uses up nobody holds or reads, and one
/// that it reads nobody holds.
fn others_free(case: &Case) -> bool {
    let is_readable = case.reference == Holds::TheCoin || case.reference == Holds::Read;
    case.input == Holds::TheCoin && is_readable
}

/// A session can have committed only where its keys were free once. The book of a coin that is
/// used up is empty. A worn book, which takes many sessions, is tried with the other coins free.
fn is_reached(case: &Case) -> bool {
    let was_free = |holds| holds == Holds::TheCoin
        || holds == Holds::Locked
        || holds == Holds::Read;
    match (case.anchor, case.book) {
        (Holds::Used, book) => book == Book::Empty,
        (anchor, Book::ItsCommit) => {
            was_free(anchor) && was_free(case.input) && was_free(case.reference)
        }
        (_, Book::Worn) => others_free(case),
        _ => true,
    }
}

/// The first case that applies: it is in the book; another has used up the anchor; all its keys
/// are there for it; none of these.
fn vote_by_cases(case: &Case) -> Vote {
    match (case.anchor, case.book) {
        (_, Book::ItsCommit) => Vote::Commit,
        (Holds::TheCoin, Book::Empty) if others_free(case) => Vote::Commit,
        _ => Vote::Abort,
    }
}

/// A decision is carried out on a session that is locked, and that is one whose commit isn't in the book yet.
fn effect_by_cases(case: &Case, decision: Vote) -> Effect {
    match (vote_by_cases(case), case.book) {
        (Vote::Commit, Book::Empty) => match decision {
            Vote::Commit => Effect::Accepted,
            Vote::Abort => Effect::Aborted,
        },
        _ => Effect::Skipped,
    }
}

fn check_case(
    rt: &impl Abort,
    alloc: Global,
    session: &Session,
    case: &Case,
    decision: Vote,
) -> Result<(), Fail> {
    let mut table = table_of(rt, alloc, session, case)?;
    let vote = vote_by_cases(case);
    // A second Prepare answers the same, and so does one behind the decision.
    for effect in [effect_by_cases(case, decision), Effect::Skipped] {
        for _ in 0..2 {
            assert!(rt; prepared(rt, alloc, &mut table, session)? == vote);
        }
        assert!(rt; decided(rt, alloc, &mut table, session, decision)? == effect);
    }
    Ok(())
}

fn check_others(
    rt: &impl Abort,
    alloc: Global,
    session: &Session,
    anchor: Holds,
    book: Book,
) -> Result<(), Fail> {
    for input in OTHERS {
        for reference in OTHERS {
            let case = Case {
                anchor,
                input,
                reference,
                book,
            };
            if is_reached(&case) {
                check_case(rt, alloc, session, &case, Vote::Abort)?;
                check_case(rt, alloc, session, &case, Vote::Commit)?;
            }
        }
    }
    Ok(())
}

#[test]
fn each_case_of_a_prepare_and_a_decide(rt: HostRuntime) -> Result<(), Fail> {
    let alloc = rt.alloc();
    let session = session(alloc)?;
    for anchor in ANCHORS {
        for book in BOOKS {
            check_others(&rt, alloc, &session, anchor, book)?;
        }
    }
    Ok(())
}
