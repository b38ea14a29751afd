//! What a table stores has an encoding: what the table doesn't tell of its limits, the types do.
ghost use Rattle.std.specs.List.{AllByRecursion};
ghost use Rattle.cs_tx_types.specs.State.{StateFits};
ghost use Rattle.cs_tx_types.specs.Record.{PlaceFits, StoredFits};
ghost use Rattle.cs_table.specs.Seen.{HoldsFit, IsStored};

use cs_base::Key;
use cs_table::Record;
use cs_tx::{Digest, State, Vote};
use cs_tx_types::{digest_fits, key_fits};

fn state_fits(state: &State)
    requires { HoldsFit state.now }
    ensures { StateFits state.now }
{
    match state {
        State::Locked(_, by) | State::Inactive(by) => digest_fits(by),
        State::Unknown | State::Active(_) | State::Shared(_, _) => {}
    }
}

fn place_fits(place: &(Digest, Vote))
    ensures { PlaceFits place.now }
{
    digest_fits(&place.0);
}

fn places_fit(book: &[(Digest, Vote)])
    ensures { AllByRecursion PlaceFits book.now }
{
    for place in book {
        place_fits(place);
    }
}

/// A stored record is within all limits.
pub(crate) fn stored_fits(key: &Key, row: &Record)
    requires { IsStored row.now }
    ensures { StoredFits (record { key = key.now; value = row.now }) }
{
    key_fits(key);
    state_fits(&row.state);
    places_fit(row.book.as_slice());
}
