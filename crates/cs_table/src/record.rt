//! What becomes of the record of a key.
ghost use Rattle.std.specs.Prelude.{◌≡◌, ◌↔◌, ◌+◌, false, [], length, IsTrue, IfOk, OnOk};
ghost use Rattle.cs_tx.specs.Votes.{vote_of};
ghost use Rattle.cs_tx_value.specs.Object.{object_encoding, ObjectFits};
ghost use Rattle.cs_table.specs.Changes.{changed_state, changed_record, appeared_record, noted_record};
ghost use Rattle.cs_table.specs.Seen.{seen_record, seen_state, unknown_record, HoldsFit};
ghost use Rattle.cs_ledger.specs.Table.{locked, released, joined_by, vacated_by};
ghost use Rattle.cs_tx_types.specs.declared.state.State.TheVariants.{Unknown};

use crate::change::Change;
use crate::readers::{first_reader, gives_up_seat, takes_seat, with_reader, without_reader};
use cs_base::{Memory, Sequence};
use cs_tx::{Digest, Object, State, Vote};
use cs_tx_types::Record;
use std::alloc::Global;
use std::mem;

/// The record of a key of which nothing is known.
pub(crate) fn unknown(alloc: Global) -> Record
    ensures { result ≡ record { state = Unknown; book = [] } }
{
    Record {
        state: State::Unknown,
        book: Sequence::new(alloc),
    }
}

/// Whether nothing is known of the key.
pub(crate) fn is_unknown(row: &Record) -> bool
    ensures { IsTrue result ↔ (seen_record row.now ≡ unknown_record) }
{
    match &row.state {
        State::Unknown => row.book.is_empty(),
        State::Active(_) | State::Locked(_, _) | State::Inactive(_) | State::Shared(_, _) => false,
    }
}

// Whether a session that joins the readers makes another state.
fn is_joined(state: &State, by: &Digest) -> bool
    ensures { (result ≡ false) ↔ (joined_by by.now (seen_state state.now) ≡ seen_state state.now) }
{
    match state {
        State::Active(_) => true,
        State::Shared(_, readers) => takes_seat(readers, by),
        State::Unknown | State::Locked(_, _) | State::Inactive(_) => false,
    }
}

// Whether a session that leaves the readers makes another state.
fn is_left(state: &State, by: &Digest) -> bool
    ensures { (result ≡ false)
        ↔ (vacated_by by.now (seen_state state.now) ≡ seen_state state.now) }
{
    match state {
        State::Shared(_, readers) => gives_up_seat(readers, by),
        State::Unknown | State::Active(_) | State::Locked(_, _) | State::Inactive(_) => false,
    }
}

// Whether a change gives another state.
fn is_moved(state: &State, change: Change) -> bool
    ensures { (result ≡ false)
        ↔ (changed_state change (seen_state state.now) ≡ seen_state state.now) }
{
    match change {
        Change::Lock(_) => match state {
            State::Active(_) => true,
            State::Unknown | State::Locked(_, _) | State::Inactive(_) | State::Shared(_, _) =>
                false,
        },
        Change::Release => match state {
            State::Locked(_, _) => true,
            State::Unknown | State::Active(_) | State::Inactive(_) | State::Shared(_, _) => false,
        },
        Change::UseUp(by) => match state {
            State::Inactive(other) => by != *other,
            State::Unknown | State::Active(_) | State::Locked(_, _) | State::Shared(_, _) => true,
        },
        Change::Join(by) => is_joined(state, &by),
        Change::Leave(by) => is_left(state, &by),
    }
}

// The state that a change makes.
fn changed(alloc: Global, state: State, change: Change) -> Result<State, Memory>
    ensures now { IfOk result (λ now. seen_state now ≡ changed_state change (seen_state state)) }
    ensures fits { IfOk result (λ now. HoldsFit state → HoldsFit now) }
{
    match change {
        Change::Lock(by) => Ok(lock(state, by)),
        Change::Release => Ok(release(state)),
        Change::UseUp(by) => Ok(State::Inactive(by)),
        Change::Join(by) => join(alloc, state, by),
        Change::Leave(by) => Ok(leave(state, &by)),
    }
}

/// Changes the state, and tells whether it is another one now.
pub(crate) fn change(alloc: Global, row: &mut Record, change: Change) -> Result<bool, Memory>
    ensures now { OnOk result (seen_record row.new ≡ changed_record change (seen_record row.old)) }
    ensures fits { OnOk result (HoldsFit row.old.state → HoldsFit row.new.state) }
    ensures book { OnOk result (row.new.book ≡ row.old.book) }
    ensures same { IfOk result (λ moved.
        (moved ≡ false) ↔ (seen_record row.new ≡ seen_record row.old)) }
{
    let moved = is_moved(&row.state, change);
    let state = mem::replace(&mut row.state, State::Unknown);
    row.state = changed(alloc, state, change)?;
    Ok(moved)
}

/// Makes the object active, where nothing was known of the key, and tells whether it did.
pub(crate) fn appear(row: &mut Record, object: Object) -> bool
    ensures now { seen_record row.new
        ≡ appeared_record (object_encoding object) (seen_record row.old) }
    ensures fits { ObjectFits object → HoldsFit row.old.state → HoldsFit row.new.state }
    ensures book { row.new.book ≡ row.old.book }
    ensures same { (result ≡ false) ↔ (seen_record row.new ≡ seen_record row.old) }
{
    if let State::Unknown = row.state {
        row.state = State::Active(object);
        return true;
    }
    false
}

/// Adds a vote to the book.
pub(crate) fn note(row: &mut Record, session: Digest, vote: Vote) -> Result<(), Memory>
    ensures now { OnOk result (seen_record row.new
        ≡ noted_record session (vote_of vote) (seen_record row.old)) }
    ensures fits { OnOk result (row.new.state ≡ row.old.state) }
    ensures longer { OnOk result (length row.new.book ≡ length row.old.book + 1) }
{
    row.book.push((session, vote))?;
    Ok(())
}

fn lock(state: State, by: Digest) -> State
    ensures now { seen_state result ≡ locked by (seen_state state) }
    ensures fits { HoldsFit state → HoldsFit result }
{
    match state {
        State::Active(object) => State::Locked(object, by),
        State::Unknown => State::Unknown,
        State::Locked(object, other) => State::Locked(object, other),
        State::Inactive(other) => State::Inactive(other),
        State::Shared(object, readers) => State::Shared(object, readers),
    }
}

fn release(state: State) -> State
    ensures now { seen_state result ≡ released (seen_state state) }
    ensures fits { HoldsFit state → HoldsFit result }
{
    match state {
        State::Locked(object, _) => State::Active(object),
        State::Unknown => State::Unknown,
        State::Active(object) => State::Active(object),
        State::Inactive(by) => State::Inactive(by),
        State::Shared(object, readers) => State::Shared(object, readers),
    }
}

fn join(alloc: Global, state: State, by: Digest) -> Result<State, Memory>
    ensures now { IfOk result (λ now. seen_state now ≡ joined_by by (seen_state state)) }
    ensures fits { IfOk result (λ now. HoldsFit state → HoldsFit now) }
{
    match state {
        State::Active(object) => Ok(State::Shared(object, first_reader(alloc, by)?)),
        State::Shared(object, readers) => Ok(State::Shared(object, with_reader(readers, by)?)),
        State::Unknown => Ok(State::Unknown),
        State::Locked(object, other) => Ok(State::Locked(object, other)),
        State::Inactive(other) => Ok(State::Inactive(other)),
    }
}

fn leave(state: State, by: &Digest) -> State
    ensures now { seen_state result ≡ vacated_by by.now (seen_state state) }
    ensures fits { HoldsFit state → HoldsFit result }
{
    match state {
        State::Shared(object, readers) => {
            let others = without_reader(readers, by);
            if others.is_empty() {
                return State::Active(object);
            }
            State::Shared(object, others)
        }
        State::Unknown => State::Unknown,
        State::Active(object) => State::Active(object),
        State::Locked(object, other) => State::Locked(object, other),
        State::Inactive(other) => State::Inactive(other),
    }
}
