//! The sessions that read an object.
ghost use Rattle.std.specs.Prelude.{◌≡◌, ◌∷◌, [], ◌&&◌, ◌||◌, not, IfOk};
ghost use Rattle.cs_base.specs.Lists.{is_empty};
ghost use Rattle.cs_tx_types.specs.State.{ReadersFit};
ghost use Rattle.cs_ledger.specs.Ledger.{has};
ghost use Rattle.cs_ledger.specs.Table.{has_seat, with_reader, without_reader};

use cs_base::{MOST_READERS, Memory, Sequence};
use cs_tx::Digest;
use cs_tx_types::digest_fits;
use std::alloc::Global;

/// Whether a session is among the readers.
pub(crate) fn is_reader(readers: &[Digest], session: &Digest) -> bool
    ensures { result ≡ has session.now readers.now }
{
    for reader in readers {
        if *session == *reader {
            return true;
        }
    }
    false
}

/// Whether one more session may read the object.
pub(crate) fn has_seat(readers: &Sequence<Digest>) -> bool
    ensures { result ≡ has_seat readers.now }
{
    readers.len() < usize::from(MOST_READERS)
}

/// Whether a session that joins the readers is one more of them.
pub(crate) fn takes_seat(readers: &Sequence<Digest>, session: &Digest) -> bool
    ensures { result ≡ (not (has session.now readers.now) && has_seat readers.now) }
{
    !is_reader(readers.as_slice(), session) && has_seat(readers)
}

/// Whether the record is another one once a session has left the readers: it is among them, or there
/// is none.
pub(crate) fn gives_up_seat(readers: &Sequence<Digest>, session: &Digest) -> bool
    ensures { result ≡ (is_empty readers.now || has session.now readers.now) }
{
    readers.is_empty() || is_reader(readers.as_slice(), session)
}

/// The session as the one reader.
pub(crate) fn first_reader(alloc: Global, session: Digest) -> Result<Sequence<Digest>, Memory>
    ensures now { IfOk result (λ readers. readers ≡ session ∷ []) }
    ensures fits { IfOk result ReadersFit }
{
    digest_fits(&session);
    let mut readers = Sequence::new(alloc);
    readers.push(session)?;
    Ok(readers)
}

/// The readers with the session behind them, where it isn't among them and there is a seat.
pub(crate) fn with_reader(
    readers: Sequence<Digest>,
    session: Digest,
) -> Result<Sequence<Digest>, Memory>
    ensures now { IfOk result (λ joined. joined ≡ with_reader session readers) }
    ensures fits { IfOk result (λ joined. ReadersFit readers → ReadersFit joined) }
{
    digest_fits(&session);
    if is_reader(readers.as_slice(), &session) || !has_seat(&readers) {
        return Ok(readers);
    }
    let mut joined = readers;
    joined.push(session)?;
    Ok(joined)
}

/// The readers without the session.
pub(crate) fn without_reader(readers: Sequence<Digest>, session: &Digest) -> Sequence<Digest>
    ensures now { result ≡ without_reader session.now readers }
    ensures fits { ReadersFit readers → (result ≡ [] → ⊥) → ReadersFit result }
{
    let mut others = readers.into_vec();
    others.retain(|reader| *session != *reader);
    Sequence::from_vec(others)
}
