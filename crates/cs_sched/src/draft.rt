//! What was read of a schedule so far, and what each line adds.
ghost use Rattle.std.specs.Prelude.{◌≡◌, IfOk};
ghost use Rattle.cs_base.specs.Config.{config_of};
ghost use Rattle.cs_base.specs.Lines.{views};
ghost use Rattle.cs_tx_value.specs.Object.{ObjectFits};
ghost use Rattle.cs_tx.specs.Digest.{name_of_genesis};
ghost use Rattle.cs_text.specs.Reading.{Moves};
ghost use Rattle.cs_sched.specs.Drafts.{empty_draft};
ghost use Rattle.cs_sched.specs.Lines.{shards_line, faulty_line, dummies_line, master_line, liar_line, contract_line, genesis_line, run_line, event_line, end_line};

use crate::Schedule;
use crate::events::read_event;
use crate::lines::{
    read_contract_line, read_dummies, read_faulty, read_liar_line, read_object_line, read_shards,
};
use crate::name_set::NameSet;
use cs_base::{Config, Key, Memory, Sequence};
use cs_text::{Cause, LineError, no_field, read_digest_line};
use cs_tx::{Digest, Object, genesis_key};
use std::alloc::Global;

// Which line can stand next.
#[derive(Clone, Copy, Debug, PartialEq, Eq)]
pub(crate) enum Stage {
    Shards,
    Faulty,
    Dummies,
    Master,
    Liars,
    Contracts,
    Genesis,
    Events,
    Ended,
}

// What was read so far, with the names of its objects.
#[derive(Drop)]
pub(crate) struct Draft {
    pub(crate) stage: Stage,
    pub(crate) schedule: Schedule,
    pub(crate) names: NameSet,
}

/// The name that is the key of a genesis object.
pub fn genesis_name(alloc: Global, place: u32, object: &Object) -> Result<Digest, Memory>
    requires { ObjectFits object.now }
    ensures { IfOk result (λ name. name ≡ name_of_genesis place object.now) }
{
    match genesis_key(alloc, place, object)? {
        Key::Object(name) => Ok(name),
        Key::Dummy(..) => unreachable!(),
    }
}

/// The configuration before its lines are read.
pub fn least_config() -> Config
    ensures { result ≡ config_of 1 0 0 }
{
    Config {
        shards: 1,
        f: 0,
        dummies: 0,
        version: 1,
    }
}

// Each line that is refused leaves the draft in some state, and the reader stops there.
impl Draft {
    pub(crate) fn new(alloc: Global) -> Draft
        ensures { result ≡ empty_draft }
    {
        Draft {
            stage: Stage::Shards,
            schedule: Schedule {
                config: least_config(),
                master: [0; 32],
                liars: Sequence::new(alloc),
                contracts: Sequence::new(alloc),
                genesis: Sequence::new(alloc),
                events: Sequence::new(alloc),
            },
            names: NameSet::new(alloc),
        }
    }

    pub(crate) fn take_shards(&mut self, fields: &[&[u8]]) -> Result<(), LineError>
        ensures { Moves result self.new (shards_line self.old (views fields.now)) }
    {
        self.schedule.config = read_shards(self.schedule.config, fields)?;
        self.stage = Stage::Faulty;
        Ok(())
    }

    pub(crate) fn take_faulty(&mut self, fields: &[&[u8]]) -> Result<(), LineError>
        ensures { Moves result self.new (faulty_line self.old (views fields.now)) }
    {
        self.schedule.config = read_faulty(self.schedule.config, fields)?;
        self.stage = Stage::Dummies;
        Ok(())
    }

    pub(crate) fn take_dummies(&mut self, fields: &[&[u8]]) -> Result<(), LineError>
        ensures { Moves result self.new (dummies_line self.old (views fields.now)) }
    {
        self.schedule.config = read_dummies(self.schedule.config, fields)?;
        self.stage = Stage::Master;
        Ok(())
    }

    pub(crate) fn take_master(&mut self, alloc: Global, fields: &[&[u8]]) -> Result<(), LineError>
        ensures { Moves result self.new (master_line self.old (views fields.now)) }
    {
        self.schedule.master = read_digest_line(alloc, fields)?;
        self.stage = Stage::Liars;
        Ok(())
    }

    pub(crate) fn take_liar(&mut self, fields: &[&[u8]]) -> Result<(), LineError>
        ensures { Moves result self.new (liar_line self.old (views fields.now)) }
    {
        let liar = read_liar_line(&self.schedule, fields)?;
        self.schedule.liars.push(liar)?;
        Ok(())
    }

    pub(crate) fn take_contract(&mut self, alloc: Global, fields: &[&[u8]]) -> Result<(), LineError>
        ensures { Moves result self.new (contract_line self.old (views fields.now)) }
    {
        let text = read_contract_line(alloc, self.schedule.contracts.len(), fields)?;
        self.schedule.contracts.push(text)?;
        self.stage = Stage::Contracts;
        Ok(())
    }

    pub(crate) fn take_genesis(&mut self, alloc: Global, fields: &[&[u8]]) -> Result<(), LineError>
        ensures { Moves result self.new (genesis_line self.old (views fields.now)) }
    {
        let place = self.schedule.genesis.len();
        let object = read_object_line(alloc, place, fields)?;
        let name = genesis_name(alloc, place as u32, &object)?;
        if !self.names.insert(name)? {
            return Err(LineError::Bad(Cause::Key));
        }
        self.schedule.genesis.push(object)?;
        self.stage = Stage::Genesis;
        Ok(())
    }

    pub(crate) fn take_run(&mut self, fields: &[&[u8]]) -> Result<(), LineError>
        ensures { Moves result self.new (run_line self.old (views fields.now)) }
    {
        no_field(fields)?;
        self.stage = Stage::Events;
        Ok(())
    }

    pub(crate) fn take_event(
        &mut self,
        alloc: Global,
        line: u64,
        word: &[u8],
        fields: &[&[u8]],
    ) -> Result<(), LineError>
        ensures { Moves result self.new (event_line line self.old word.now (views fields.now)) }
    {
        let event = read_event(alloc, &self.schedule, word, fields)?;
        self.schedule.events.push((line, event))?;
        Ok(())
    }

    pub(crate) fn take_end(&mut self, fields: &[&[u8]]) -> Result<(), LineError>
        ensures { Moves result self.new (end_line self.old (views fields.now)) }
    {
        no_field(fields)?;
        self.stage = Stage::Ended;
        Ok(())
    }
}
