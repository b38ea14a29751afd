//! Calls on a table, by sessions that have a key there.
use cs_table::Table;
use cs_tx::{Encoded, Session, Vote, session_digest};
use cs_tx_types::Effect;
use std::alloc::Global;
use std::process::Abort;
use std::test::Fail;

/// The vote on a session, which is locked where that is a commit that isn't on record.
pub fn prepared(
    rt: &impl Abort,
    alloc: Global,
    table: &mut Table,
    session: &Session,
) -> Result<Vote, Fail> {
    assert!(rt; session.fits());
    let anchored = table.has_anchor(alloc, session)?;
    assert!(rt; anchored);
    let digest = session_digest(alloc, session)?;
    Ok(table.prepare(alloc, session, &digest)?.vote)
}

/// What a decision on a session comes to.
pub fn decided(
    rt: &impl Abort,
    alloc: Global,
    table: &mut Table,
    session: &Session,
    vote: Vote,
) -> Result<Effect, Fail> {
    assert!(rt; session.fits());
    let anchored = table.has_anchor(alloc, session)?;
    assert!(rt; anchored);
    let digest = session_digest(alloc, session)?;
    Ok(table.decide(alloc, session, &digest, vote)?)
}
