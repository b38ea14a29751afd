//! What a member claims as it enters a view: digests that rise, with earlier views.
ghost use Rattle.std.specs.Prelude.{◌≡◌, ◌≤◌, None};
ghost use Rattle.cs_base.specs.Fields.{bytes_at};
ghost use Rattle.cs_base.specs.declared.limits.TheConstants.{LAST_VIEW};
ghost use Rattle.cs_tx_value.specs.Reading.{ReadsValue, Passes};
ghost use Rattle.cs_wire_message.specs.Message.{is_after_last};
ghost use Rattle.cs_wire_message.specs.Reading.{Gets, above_at, below_at, echo_at, rising_at, echoed_at, prepared_at, claimed_at, claim_at};

use crate::change::Change;
use cs_base::{Cursor, LAST_VIEW, MOST_ECHOED, Sequence};
use cs_tx_types::{read_slot, skip_slot};
use cs_tx_value::{Digest, FormError};
use std::alloc::Global;

/// Whether the digest comes after the last one, where there is one.
pub fn comes_after(last: &Option<Digest>, digest: &Digest) -> bool
    ensures { result ≡ is_after_last last.now digest.now }
{
    match last {
        None => true,
        Some(last) => last.as_slice().cmp(digest.as_slice()).is_lt(),
    }
}

fn next_digest(cursor: &mut Cursor<'_>) -> Result<Digest, FormError>
    ensures { Gets result cursor.new (bytes_at 32 cursor.old) }
{
    let bytes = cursor.take(32)?;
    let mut digest = [0; 32];
    digest.copy_from_slice(bytes);
    Ok(digest)
}

// A digest that comes after the last one.
#[tactic(auto, unfolding(cs_base::specs::Fields::tested_at))]
fn next_above(cursor: &mut Cursor<'_>, last: &Option<Digest>) -> Result<Digest, FormError>
    ensures { Gets result cursor.new (above_at last.now cursor.old) }
{
    let digest = next_digest(cursor)?;
    if !comes_after(last, &digest) {
        return Err(FormError::BadForm);
    }
    Ok(digest)
}

#[tactic(auto, unfolding(cs_base::specs::Fields::tested_at))]
fn next_below(cursor: &mut Cursor<'_>, view: u16) -> Result<u16, FormError>
    ensures { Gets result cursor.new (below_at view cursor.old) }
{
    let earlier = cursor.u16()?;
    if earlier >= view {
        return Err(FormError::BadForm);
    }
    Ok(earlier)
}

#[tactic(auto, unfolding(cs_base::specs::Fields::pair_at))]
fn next_echo(
    cursor: &mut Cursor<'_>,
    view: u16,
    last: &Option<Digest>,
) -> Result<(Digest, u16), FormError>
    ensures { Gets result cursor.new (echo_at view last.now cursor.old) }
{
    let digest = next_above(cursor, last)?;
    let earlier = next_below(cursor, view)?;
    Ok((digest, earlier))
}

fn read_rising(
    alloc: Global,
    cursor: &mut Cursor<'_>,
    view: u16,
    count: u8,
) -> Result<Sequence<(Digest, u16)>, FormError>
    ensures { ReadsValue result cursor.new (rising_at view None count cursor.old) }
{
    let mut echoed = Sequence::new(alloc);
    let mut last = None;
    for _ in 0..count {
        let echo = next_echo(cursor, view, &last)?;
        last = Some(echo.0);
        echoed.push(echo)?;
    }
    Ok(echoed)
}

fn skip_rising(cursor: &mut Cursor<'_>, view: u16, count: u8) -> Result<(), FormError>
    ensures { Passes result cursor.new (rising_at view None count cursor.old) }
{
    let mut last = None;
    for _ in 0..count {
        let echo = next_echo(cursor, view, &last)?;
        last = Some(echo.0);
    }
    Ok(())
}

#[tactic(auto, unfolding(cs_base::specs::Fields::upto_at))]
fn read_echoed(
    alloc: Global,
    cursor: &mut Cursor<'_>,
    view: u16,
) -> Result<Sequence<(Digest, u16)>, FormError>
    ensures { ReadsValue result cursor.new (echoed_at view cursor.old) }
{
    let count = cursor.u8()?;
    if count > MOST_ECHOED {
        return Err(FormError::BadForm);
    }
    read_rising(alloc, cursor, view, count)
}

#[tactic(auto, unfolding(cs_base::specs::Fields::upto_at))]
fn skip_echoed(cursor: &mut Cursor<'_>, view: u16) -> Result<(), FormError>
    ensures { Passes result cursor.new (echoed_at view cursor.old) }
{
    let count = cursor.u8()?;
    if count > MOST_ECHOED {
        return Err(FormError::BadForm);
    }
    skip_rising(cursor, view, count)
}

#[tactic(auto, unfolding(cs_tx_value::specs::Kinds::kinds_at, cs_base::specs::Fields::pair_at))]
fn read_prepared(cursor: &mut Cursor<'_>, view: u16) -> Result<Option<(u16, Digest)>, FormError>
    ensures { ReadsValue result cursor.new (prepared_at view cursor.old) }
{
    match cursor.u8()? {
        0 => Ok(None),
        1 => {
            let earlier = next_below(cursor, view)?;
            let digest = next_digest(cursor)?;
            Ok(Some((earlier, digest)))
        }
        _ => Err(FormError::BadForm),
    }
}

#[tactic(auto, using(cs_base::proofs::Many::behind_map), unfolding(cs_tx_value::specs::Kinds::kinds_at, cs_base::specs::Fields::pair_at))]
fn skip_prepared(cursor: &mut Cursor<'_>, view: u16) -> Result<(), FormError>
    ensures { Passes result cursor.new (prepared_at view cursor.old) }
{
    match cursor.u8()? {
        0 => Ok(()),
        1 => {
            next_below(cursor, view)?;
            next_digest(cursor)?;
            Ok(())
        }
        _ => Err(FormError::BadForm),
    }
}

// What is claimed at a view.
#[tactic(auto, unfolding(crate::specs::Reading::claimed_at, cs_base::specs::Fields::pair_at))]
fn read_claimed(
    alloc: Global,
    cursor: &mut Cursor<'_>,
    view: u16,
) -> Result<(u16, Change), FormError>
    requires { view ≤ LAST_VIEW }
    ensures { ReadsValue result cursor.new (claimed_at view cursor.old) }
{
    if view < 1 {
        return Err(FormError::BadForm);
    }
    let prepared = read_prepared(cursor, view)?;
    let echoed = read_echoed(alloc, cursor, view)?;
    Ok((view, Change { prepared, echoed }))
}

#[tactic(auto, using(cs_base::proofs::Many::behind_map, cs_base::proofs::Many::behind_pair), unfolding(crate::specs::Reading::claimed_at))]
fn skip_claimed(cursor: &mut Cursor<'_>, view: u16) -> Result<(), FormError>
    requires { view ≤ LAST_VIEW }
    ensures { Passes result cursor.new (claimed_at view cursor.old) }
{
    if view < 1 {
        return Err(FormError::BadForm);
    }
    skip_prepared(cursor, view)?;
    skip_echoed(cursor, view)
}

/// A slot, a view from 1 on, and what is claimed there.
#[tactic(auto, unfolding(crate::specs::Reading::claim_at, cs_base::specs::Fields::upto_at, cs_base::specs::Fields::pair_at))]
pub fn read_claim(alloc: Global, cursor: &mut Cursor<'_>) -> Result<(u64, (u16, Change)), FormError>
    ensures { ReadsValue result cursor.new (claim_at cursor.old) }
{
    let slot = read_slot(cursor)?;
    let view = cursor.u16()?;
    if view > LAST_VIEW {
        return Err(FormError::BadForm);
    }
    let claim = read_claimed(alloc, cursor, view)?;
    Ok((slot, claim))
}

/// Passes over a slot, a view from 1 on, and what is claimed there.
#[tactic(auto, unfolding(crate::specs::Reading::claim_at, cs_base::specs::Fields::upto_at, cs_base::specs::Fields::pair_at))]
pub fn skip_claim(cursor: &mut Cursor<'_>) -> Result<(), FormError>
    ensures { Passes result cursor.new (claim_at cursor.old) }
{
    skip_slot(cursor)?;
    let view = cursor.u16()?;
    if view > LAST_VIEW {
        return Err(FormError::BadForm);
    }
    skip_claimed(cursor, view)
}
