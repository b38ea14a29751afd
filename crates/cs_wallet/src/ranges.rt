//! The used numbers of a file: each once, without a sign, and not too many.
ghost use Rattle.std.specs.Prelude.{◌≡◌, ◌≤◌, negsuc, true, IfOk};
ghost use Rattle.cs_wallet.specs.File.{FileGives, stands, are_apart, number_of, signed_in, numbered, used_of};
ghost use Rattle.cs_wallet.specs.Rising.{rise_from};
ghost use Rattle.cs_wallet.specs.Fitting.{SignedFits, AllSignedFit, UsedFits};
ghost use Rattle.cs_onetime.specs.declared.wallet.TheConstants.{LAST_NUMBER};

use crate::entry::Entry;
use crate::error::FileError;
use cs_base::Sequence;
use cs_onetime::{Digest, MOST_USED};
use std::alloc::Global;

// Whether one of the entries has the number.
fn stands(number: i64, entries: &[Entry]) -> bool
    ensures { result ≡ stands number entries.now }
{
    entries.iter().any(|entry| entry.number == number)
}

// Whether each number is above the one before it.
fn are_rising(entries: &[Entry]) -> bool
    ensures { result ≡ rise_from (negsuc 0) entries.now }
{
    let mut last = -1;
    for entry in entries {
        if entry.number <= last {
            return false;
        }
        last = entry.number;
    }
    true
}

// Whether no number stands among those behind it.
fn is_none_behind(entries: &[Entry]) -> bool
    ensures { result ≡ are_apart entries.now }
{
    for (place, entry) in entries.iter().enumerate() {
        let (_, later) = entries.split_at(place + 1);
        if stands(entry.number, later) {
            return false;
        }
    }
    true
}

/// Whether no number stands twice. One pass tells it of numbers that rise, as they do where each is
/// used in its turn.
#[tactic(auto, using(crate::proofs::Rising::rising_apart))]
pub(crate) fn are_apart(entries: &[Entry]) -> bool
    ensures { result ≡ are_apart entries.now }
{
    are_rising(entries) || is_none_behind(entries)
}

fn number_of(number: i64) -> Result<u64, FileError>
    ensures given { result ≡ number_of number }
    ensures small { IfOk result (λ n. n ≤ LAST_NUMBER) }
{
    match u64::try_from(number) {
        Ok(number) => Ok(number),
        Err(_) => Err(FileError::LimitUsed),
    }
}

fn signed_of(number: u64, message: Digest) -> (u64, Digest)
    requires { number ≤ LAST_NUMBER }
    ensures is { result ≡ (number, message) }
    ensures fits { SignedFits result }
{
    (number, message)
}

// The number and the message of an entry.
fn signed_in(entry: &Entry) -> Result<(u64, Digest), FileError>
    ensures given { result ≡ signed_in entry.now }
    ensures fits { IfOk result SignedFits }
{
    let number = number_of(entry.number)?;
    Ok(signed_of(number, entry.message))
}

fn numbered(alloc: Global, entries: &[Entry]) -> Result<Sequence<(u64, Digest)>, FileError>
    ensures given { FileGives result (numbered entries.now) }
    ensures fits { IfOk result AllSignedFit }
{
    let mut used = Sequence::new(alloc);
    for entry in entries {
        let signed = signed_in(entry)?;
        used.push(signed)?;
    }
    Ok(used)
}

/// The numbers and their messages.
pub(crate) fn used_of(
    alloc: Global,
    entries: &[Entry],
) -> Result<Sequence<(u64, Digest)>, FileError>
    requires { are_apart entries.now ≡ true }
    ensures given { FileGives result (used_of entries.now) }
    ensures fits { IfOk result UsedFits }
{
    if entries.len() > MOST_USED {
        return Err(FileError::LimitUsed);
    }
    numbered(alloc, entries)
}
