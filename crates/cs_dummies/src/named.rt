//! The dummies that nodes name.
ghost use Rattle.std.specs.Prelude.{◌≡◌, Some, IfOk, fold};
ghost use Rattle.cs_dummies.specs.Named.{is_asked, without, named_so, named_alone, named_with, names, namers, lesser, least_serial, least_named};

use crate::limits::MOST_ASKED;
use cs_base::{Memory, Sequence};
use std::alloc::Global;

// Whether the dummy of this serial is asked for, where those from the first one on are.
fn is_asked(first: u64, serial: u64) -> bool
    ensures { result ≡ is_asked first serial }
{
    first <= serial && serial - first < MOST_ASKED
}

// These without one.
fn without(alloc: Global, serial: u64, named: &[u64]) -> Result<Sequence<u64>, Memory>
    ensures { IfOk result (λ others. others ≡ without serial named.now) }
{
    let mut others = Sequence::new(alloc);
    for other in named {
        if *other != serial {
            others.push(*other)?;
        }
    }
    Ok(others)
}

// What is named, after one dummy more is told as active or as not.
fn named_so(
    alloc: Global,
    serial: u64,
    active: bool,
    named: &[u64],
) -> Result<Sequence<u64>, Memory>
    ensures { IfOk result (λ new. new ≡ named_so (serial, active) named.now) }
{
    let mut others = without(alloc, serial, named)?;
    if active {
        others.push(serial)?;
    }
    Ok(others)
}

// What is named by one word alone.
fn named_alone(alloc: Global, serial: u64, active: bool) -> Result<Sequence<u64>, Memory>
    ensures { IfOk result (λ new. new ≡ named_alone (serial, active)) }
{
    let mut new = Sequence::new(alloc);
    if active {
        new.push(serial)?;
    }
    Ok(new)
}

// What is named, after one word more of one that those from the first on are asked of.
fn named_from(
    alloc: Global,
    first: u64,
    serial: u64,
    active: bool,
    named: &[u64],
) -> Result<Sequence<u64>, Memory>
    ensures { IfOk result (λ new. new ≡ named_with (Some first) (serial, active) named.now) }
{
    if is_asked(first, serial) {
        return named_so(alloc, serial, active, named);
    }
    Ok(Sequence::from_vec(Vec::from_slice(alloc, named)?))
}

/// The dummies that a node names, after it has told one more as active or as not. Where those from
/// the first one on are asked for, its last word on each of them counts; else its last word alone.
pub fn named_with(
    alloc: Global,
    first: Option<u64>,
    serial: u64,
    active: bool,
    named: &[u64],
) -> Result<Sequence<u64>, Memory>
    ensures { IfOk result (λ new. new ≡ named_with first (serial, active) named.now) }
{
    match first {
        Some(first) => named_from(alloc, first, serial, active, named),
        None => named_alone(alloc, serial, active),
    }
}

// Whether a node names this serial.
fn names(serial: u64, named: &[u64]) -> bool
    ensures { result ≡ names serial named.now }
{
    for other in named {
        if *other == serial {
            return true;
        }
    }
    false
}

// How many of them do.
fn namers(serial: u64, words: &[Sequence<u64>]) -> usize
    ensures { result ≡ namers serial words.now }
{
    let mut count = 0;
    for named in words {
        count += usize::from(names(serial, named.as_slice()));
    }
    count
}

fn lesser(least: Option<u64>, serial: u64) -> Option<u64>
    ensures { result ≡ lesser least serial }
{
    match least {
        Some(other) => Some(other.min(serial)),
        None => Some(serial),
    }
}

// The least of what was found so far and of those that one node names and more than f name.
fn least_of(f: u16, all: &[Sequence<u64>], named: &[u64], found: Option<u64>) -> Option<u64>
    ensures { result ≡ fold (least_serial f all.now) found named.now }
{
    let mut least = found;
    for serial in named {
        if namers(*serial, all) > usize::from(f) {
            least = lesser(least, *serial);
        }
    }
    least
}

/// The least of the serials that more than f of the nodes name.
pub fn least_named(f: u16, words: &[Sequence<u64>]) -> Option<u64>
    ensures { result ≡ least_named f words.now }
{
    let mut least = None;
    for named in words {
        least = least_of(f, words, named.as_slice(), least);
    }
    least
}
