//! What was read of a dump so far, and what each line adds.
ghost use Rattle.std.specs.Prelude.{◌≡◌, ◌<◌, Ok};
ghost use Rattle.cs_base.specs.Lines.{views};
ghost use Rattle.cs_text.specs.Reading.{Moves};
ghost use Rattle.cs_audit_dump.specs.Drafts.{empty_dump, empty_dump_draft};
ghost use Rattle.cs_audit_dump.specs.Lines.{after_shards_line, after_faulty_line, after_dummies_line, after_contract_line, after_genesis_line, after_log_line, after_leaf_line, after_head_line, history_line, after_tx_line, after_end_line, log_settled};

use crate::dump::{Dump, Log, no_slot};
use crate::lines::{read_leaf_line, read_log_line};
use cs_base::Sequence;
use cs_sched::{
    NameSet, genesis_name, least_config, read_contract_line, read_dummies, read_faulty,
    read_object_line, read_shards,
};
use cs_text::{Cause, LineError, no_field, only_number, read_digest_line};
use cs_tx_types::COVERED;
use std::alloc::Global;
use std::mem;

// Which line can stand next.
#[derive(Clone, Copy, Debug, PartialEq, Eq)]
pub(crate) enum Stage {
    Before,
    Shards,
    Faulty,
    Dummies,
    Contracts,
    Genesis,
    Logs,
    History,
    Ended,
}

// What was read so far, with the names of its objects, and the log that is being read; and how many
// lines of the log, or of the history, are still to come.
#[derive(Drop)]
pub(crate) struct Draft {
    pub(crate) stage: Stage,
    pub(crate) dump: Dump,
    pub(crate) names: NameSet,
    pub(crate) log: Log,
    pub(crate) leaves_left: u64,
    pub(crate) heads_left: u64,
    pub(crate) txs_left: u64,
}

fn no_dump(alloc: Global) -> Dump
    ensures { result ≡ empty_dump }
{
    Dump {
        config: least_config(),
        contracts: Sequence::new(alloc),
        genesis: Sequence::new(alloc),
        logs: Sequence::new(alloc),
        history: Sequence::new(alloc),
    }
}

// Each line that is refused leaves the draft in some state, and the reader stops there.
impl Draft {
    pub(crate) fn new(alloc: Global) -> Draft
        ensures { result ≡ empty_dump_draft }
    {
        Draft {
            stage: Stage::Before,
            dump: no_dump(alloc),
            names: NameSet::new(alloc),
            log: no_slot(alloc),
            leaves_left: 0,
            heads_left: 0,
            txs_left: 0,
        }
    }

    pub(crate) fn take_shards(&mut self, fields: &[&[u8]]) -> Result<(), LineError>
        ensures { Moves result self.new (after_shards_line self.old (views fields.now)) }
    {
        self.dump.config = read_shards(self.dump.config, fields)?;
        self.stage = Stage::Faulty;
        Ok(())
    }

    pub(crate) fn take_faulty(&mut self, fields: &[&[u8]]) -> Result<(), LineError>
        ensures { Moves result self.new (after_faulty_line self.old (views fields.now)) }
    {
        self.dump.config = read_faulty(self.dump.config, fields)?;
        self.stage = Stage::Dummies;
        Ok(())
    }

    pub(crate) fn take_dummies(&mut self, fields: &[&[u8]]) -> Result<(), LineError>
        ensures { Moves result self.new (after_dummies_line self.old (views fields.now)) }
    {
        self.dump.config = read_dummies(self.dump.config, fields)?;
        self.stage = Stage::Contracts;
        Ok(())
    }

    pub(crate) fn take_contract(&mut self, alloc: Global, fields: &[&[u8]]) -> Result<(), LineError>
        ensures { Moves result self.new (after_contract_line self.old (views fields.now)) }
    {
        let text = read_contract_line(alloc, self.dump.contracts.len(), fields)?;
        self.dump.contracts.push(text)?;
        Ok(())
    }

    pub(crate) fn take_genesis(&mut self, alloc: Global, fields: &[&[u8]]) -> Result<(), LineError>
        ensures { Moves result self.new (after_genesis_line self.old (views fields.now)) }
    {
        let place = self.dump.genesis.len();
        let object = read_object_line(alloc, place, fields)?;
        let name = genesis_name(alloc, place as u32, &object)?;
        if !self.names.insert(name)? {
            return Err(LineError::Bad(Cause::Key));
        }
        self.dump.genesis.push(object)?;
        self.stage = Stage::Genesis;
        Ok(())
    }

    // Puts the log to the others, where all its lines were read.
    fn settle(&mut self, alloc: Global) -> Result<(), LineError>
        ensures { Moves result self.new (Ok (log_settled self.old)) }
    {
        if self.leaves_left > 0 || self.heads_left > 0 {
            return Ok(());
        }
        let log = mem::replace(&mut self.log, no_slot(alloc));
        self.dump.logs.push(log)?;
        Ok(())
    }

    pub(crate) fn take_log(&mut self, alloc: Global, fields: &[&[u8]]) -> Result<(), LineError>
        ensures { Moves result self.new (after_log_line self.old (views fields.now)) }
    {
        let slots = read_log_line(self.dump.logs.len(), fields)?;
        self.stage = Stage::Logs;
        self.leaves_left = slots;
        self.heads_left = slots / COVERED;
        self.settle(alloc)
    }

    pub(crate) fn take_leaf(&mut self, alloc: Global, fields: &[&[u8]]) -> Result<(), LineError>
        requires { 0 < self.old.leaves_left }
        ensures { Moves result self.new (after_leaf_line self.old (views fields.now)) }
    {
        let leaf = read_leaf_line(alloc, fields)?;
        self.log.leaves.push(leaf)?;
        self.leaves_left -= 1;
        self.settle(alloc)
    }

    pub(crate) fn take_head(&mut self, alloc: Global, fields: &[&[u8]]) -> Result<(), LineError>
        requires { 0 < self.old.heads_left }
        ensures { Moves result self.new (after_head_line self.old (views fields.now)) }
    {
        let head = read_digest_line(alloc, fields)?;
        self.log.heads.push(head)?;
        self.heads_left -= 1;
        self.settle(alloc)
    }

    pub(crate) fn take_history(&mut self, fields: &[&[u8]]) -> Result<(), LineError>
        ensures { Moves result self.new (history_line self.old (views fields.now)) }
    {
        self.txs_left = only_number(fields)?;
        self.stage = Stage::History;
        Ok(())
    }

    pub(crate) fn take_tx(&mut self, alloc: Global, fields: &[&[u8]]) -> Result<(), LineError>
        requires { 0 < self.old.txs_left }
        ensures { Moves result self.new (after_tx_line self.old (views fields.now)) }
    {
        let tx = read_digest_line(alloc, fields)?;
        self.dump.history.push(tx)?;
        self.txs_left -= 1;
        Ok(())
    }

    pub(crate) fn take_end(&mut self, fields: &[&[u8]]) -> Result<(), LineError>
        ensures { Moves result self.new (after_end_line self.old (views fields.now)) }
    {
        no_field(fields)?;
        self.stage = Stage::Ended;
        Ok(())
    }
}
