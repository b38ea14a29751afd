//! Transfers of coins, and sessions of one transfer.
use crate::coins::{TOKEN, coin};
use cs_base::{Memory, Sequence};
use cs_tx_types::{Session, Trace, Tx};
use cs_tx_value::{Digest, Name, Object};
use std::alloc::Global;

/// What one trace of method `transfer` of `token` uses and makes.
#[derive(Drop)]
pub struct Transfer {
    pub inputs: Sequence<(Digest, Object)>,
    pub references: Sequence<(Digest, Object)>,
    pub outputs: Sequence<Object>,
}

impl Transfer {
    /// A transfer that uses and makes nothing yet.
    pub fn new(alloc: Global) -> Transfer {
        Transfer {
            inputs: Sequence::new(alloc),
            references: Sequence::new(alloc),
            outputs: Sequence::new(alloc),
        }
    }

    /// The session of this transfer alone, without dummies.
    pub fn into_session(self, alloc: Global, number: u64) -> Result<Session, Memory> {
        let mut traces = Sequence::new(alloc);
        traces.push(Trace {
            contract: TOKEN,
            method: Name::from_vec(Vec::from_slice(alloc, b"transfer")?),
            inputs: self.inputs,
            references: self.references,
            parameters: Sequence::new(alloc),
            outputs: self.outputs,
            returns: Sequence::new(alloc),
            deps: Sequence::new(alloc),
        })?;
        Ok(Session {
            tx: Tx { traces },
            number,
            dummies: Sequence::new(alloc),
        })
    }
}

/// The session that uses up the coin of this name, said to be worth so much, and makes coins of these worths.
pub fn spend(
    alloc: Global,
    name: Digest,
    worth: i64,
    made: &[i64],
    number: u64,
) -> Result<Session, Memory> {
    let mut transfer = Transfer::new(alloc);
    transfer.inputs.push((name, coin(alloc, worth)?))?;
    for output in made {
        transfer.outputs.push(coin(alloc, *output)?)?;
    }
    transfer.into_session(alloc, number)
}
