//! Runs parts of the ledger many times over, for the scripts under bench/, which time them.
//!
//! Words: `table OBJECTS SESSIONS ROUNDS` makes a shard of so many coins, at most 1,000,000, and then
//! spends so many of them, each by a session that is prepared in so many rounds and decided once.
//! `merkle LEAVES ROUNDS` makes so many leaves of 100 bytes and computes their root in so many rounds.
//! `root OBJECTS ROUNDS` makes a shard of so many coins and computes the root over its records in so many rounds.
//! `checkpoints OBJECTS SLOTS KEYS` makes a node of one shard with so many coins and closes so many slots, in which coins are
//! prepared where KEYS is `old`, and prepared and decided where it is `new`; `executions OBJECTS SLOTS KEYS` does
//! the same, and closes none.
//! `leaves OBJECTS COUNT` makes a shard of so many coins and pushes so many leaves to the chain of its checkpoints.
//! `slots F COUNT` chooses so many entries among 3F+1 members, of 16 at most, with all messages delivered. Each cuts its log.
//! `hostile VIEWS` lets five liars of 16 members fill so many views, at most 1,024, of the open slot and the 15 above,
//! chooses 11 slots, and the same where the liars are silent, and prints one line of numbers: the liars' messages
//! that were taken, and the nanoseconds for these, for the slots, and for those among silent liars.
//! `seal BYTES COUNT` seals a message with so many bytes of text, at most 4,096, so many times, and
//! `open BYTES COUNT` opens its datagram as often.
//! `hash KIND LENGTH COUNT ..` hashes so many strings of that length, at most 65,536 bytes, for each three words, the
//! kind being `tag` or `digest`, and prints a number that comes of all hashes.
//! `parse METHODS COUNT` reads a contract text of so many methods, at most 64, of 1,024 bytes each so
//! many times, and `accept METHODS COUNT` also accepts it.
//! Else it prints nothing; the status is 0, or 1 where not every entry was chosen or executed, not every datagram sealed or
//! opened or not every text read or accepted, or 2 for other words, or 8 for want of memory.
#![tactic(auto)]

mod checkpoints;
mod datagrams;
mod hashes;
mod hostile;
mod lang;
mod leaves;
mod merkle;
mod slots;
mod table;

use checkpoints::{Extent, Keys, Measured};
use cs_base::Memory;
use datagrams::{open_often, seal_often};
use hashes::{Kind, Row, hash_row};
use lang::{accept_often, read_often};
use std::alloc::Global;
use std::process::ExitCode;
use std::{env, io};

/// Everything was done.
const DONE: u8 = 0;

/// Not every entry was chosen, datagram sealed or opened, or text read or accepted.
const NOT_ALL: u8 = 1;

/// The words are none that are known.
const OTHER_WORDS: u8 = 2;

/// The greatest number among the words.
const MOST: u32 = 1_000_000;

/// What the first word calls for.
#[derive(Clone, Copy)]
enum Part {
    Table,
    Slots(Extent),
    Hostile,
    Hash,
    Sized(Task),
}

/// What is done so many times on something of a size.
#[derive(Clone, Copy)]
enum Task {
    Merkle,
    Root,
    Leaves,
    Slots,
    Seal,
    Open,
    Parse,
    Accept,
}

/// A word behind the first one.
#[derive(Clone, Copy)]
enum Word {
    Number(u32),
    Keys(Keys),
    Kind(Kind),
    Other,
}

fn main(rt: HostRuntime) -> ExitCode {
    let (part, words) = match read_words(&rt) {
        Ok(read) => read,
        Err(_) => return ExitCode::from(OTHER_WORDS),
    };
    let Some(part) = part else {
        return ExitCode::from(OTHER_WORDS);
    };
    match run(&rt, part, words.as_slice()) {
        Ok(status) => ExitCode::from(status),
        Err(_) => ExitCode::from(8),
    }
}

// What the word behind the program's name calls for, and the words behind that.
fn read_words(rt: &HostRuntime) -> io::Result<(Option<Part>, Vec<Word>)> {
    let mut args = env::args(rt)?.skip(1);
    let part = match args.next() {
        Some(word) => part_of(word.as_str()),
        None => None,
    };
    let mut words = Vec::new(rt.alloc());
    for word in args {
        words.push(word_of(word.as_str()))?;
    }
    Ok((part, words))
}

fn part_of(word: &str) -> Option<Part> {
    match word {
        "table" => Some(Part::Table),
        "checkpoints" => Some(Part::Slots(Extent::Closed)),
        "executions" => Some(Part::Slots(Extent::Executed)),
        "hostile" => Some(Part::Hostile),
        "hash" => Some(Part::Hash),
        _ => match task_of(word) {
            Some(task) => Some(Part::Sized(task)),
            None => None,
        },
    }
}

fn task_of(word: &str) -> Option<Task> {
    match word {
        "merkle" => Some(Task::Merkle),
        "root" => Some(Task::Root),
        "leaves" => Some(Task::Leaves),
        "slots" => Some(Task::Slots),
        "seal" => Some(Task::Seal),
        "open" => Some(Task::Open),
        "parse" => Some(Task::Parse),
        "accept" => Some(Task::Accept),
        _ => None,
    }
}

fn word_of(word: &str) -> Word {
    match word {
        "old" => Word::Keys(Keys::Old),
        "new" => Word::Keys(Keys::New),
        "tag" => Word::Kind(Kind::Tag),
        "digest" => Word::Kind(Kind::Digest),
        _ => number_of(word),
    }
}

fn number_of(word: &str) -> Word {
    match word.parse::<u32>() {
        Ok(number) if number <= MOST => Word::Number(number),
        _ => Word::Other,
    }
}

fn run(rt: &HostRuntime, part: Part, words: &[Word]) -> Result<u8, Memory> {
    match part {
        Part::Table => run_table(rt.alloc(), words),
        Part::Slots(extent) => run_slots(rt.alloc(), extent, words),
        Part::Hostile => run_hostile(rt, words),
        Part::Hash => run_hashes(rt, words),
        Part::Sized(task) => run_sized(rt.alloc(), task, words),
    }
}

fn run_table(alloc: Global, words: &[Word]) -> Result<u8, Memory> {
    let [
        Word::Number(objects),
        Word::Number(sessions),
        Word::Number(rounds),
    ] = words
    else {
        return Ok(OTHER_WORDS);
    };
    table::run(alloc, *objects, *sessions, *rounds)?;
    Ok(DONE)
}

// Slots that are executed, and closed where checkpoints are measured.
fn run_slots(alloc: Global, extent: Extent, words: &[Word]) -> Result<u8, Memory> {
    let [Word::Number(objects), Word::Number(slots), Word::Keys(keys)] = words else {
        return Ok(OTHER_WORDS);
    };
    let measured = Measured {
        objects: *objects,
        slots: *slots,
        keys: *keys,
        extent,
    };
    let all = checkpoints::run(alloc, &measured)?;
    Ok(if all { DONE } else { NOT_ALL })
}

fn run_hostile(rt: &HostRuntime, words: &[Word]) -> Result<u8, Memory> {
    let [Word::Number(views)] = words else {
        return Ok(OTHER_WORDS);
    };
    let views = u16::try_from(*views).unwrap_or(u16::MAX);
    let Some(times) = hostile::measure(rt, views)? else {
        return Ok(NOT_ALL);
    };
    let printed = println!(rt;
        "{} {} {} {}",
        times.messages, times.filling, times.filled, times.silent
    );
    Ok(if printed.is_ok() { DONE } else { NOT_ALL })
}

// A kind, a length and a count each.
fn run_hashes(rt: &HostRuntime, words: &[Word]) -> Result<u8, Memory> {
    if words.len() % 3 != 0 {
        return Ok(OTHER_WORDS);
    }
    let mut mixed = 0u8;
    for at in 0..words.len() / 3 {
        let Some(row) = row_of(words[3 * at], words[3 * at + 1], words[3 * at + 2]) else {
            return Ok(OTHER_WORDS);
        };
        mixed ^= hash_row(rt.alloc(), &row)?;
    }
    let printed = println!(rt; "{mixed}");
    Ok(if printed.is_ok() { DONE } else { NOT_ALL })
}

fn row_of(kind: Word, length: Word, count: Word) -> Option<Row> {
    match (kind, length, count) {
        (Word::Kind(kind), Word::Number(length), Word::Number(count)) => Some(Row {
            kind,
            length,
            count,
        }),
        _ => None,
    }
}

// What is done so many times with something of a size.
fn run_sized(alloc: Global, task: Task, words: &[Word]) -> Result<u8, Memory> {
    let [Word::Number(size), Word::Number(count)] = words else {
        return Ok(OTHER_WORDS);
    };
    let done = run_task(alloc, task, *size, *count)?;
    Ok(if done == *count { DONE } else { NOT_ALL })
}

// How often it was done.
fn run_task(alloc: Global, task: Task, size: u32, count: u32) -> Result<u32, Memory> {
    match task {
        Task::Merkle => {
            let roots = merkle::run(alloc, size, count)?;
            Ok(u32::try_from(roots.len()).unwrap_or(0))
        }
        Task::Root => table::root_often(alloc, size, count),
        Task::Leaves => leaves::run(alloc, size, count),
        Task::Slots => slots::run(alloc, size, count),
        Task::Seal => seal_often(alloc, size, count),
        Task::Open => open_often(alloc, size, count),
        Task::Parse => read_often(alloc, size, count),
        Task::Accept => accept_often(alloc, size, count),
    }
}
