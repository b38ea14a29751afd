//! Which lines can stand at each place.
ghost use Rattle.cs_base.specs.Lines.{views};
ghost use Rattle.cs_text.specs.Reading.{Moves};
ghost use Rattle.cs_sched.specs.Places.{genesis_place, contracts_place, liars_place, events_place};
ghost use Rattle.cs_sched.specs.Text.{schedule_form};

use crate::Schedule;
use crate::draft::{Draft, Stage};
use cs_text::{Cause, LineError, LineReader};
use std::alloc::Global;

impl LineReader for Draft {
    type Whole = Schedule;

    ghost form = { schedule_form };

    fn start(alloc: Global) -> Draft {
        Draft::new(alloc)
    }

    fn take_words(
        &mut self,
        alloc: Global,
        number: u64,
        word: &[u8],
        fields: &[&[u8]],
    ) -> Result<(), LineError> {
        match self.stage {
            Stage::Shards if word == b"shards".as_slice() => self.take_shards(fields),
            Stage::Faulty if word == b"faulty".as_slice() => self.take_faulty(fields),
            Stage::Dummies if word == b"dummies".as_slice() => self.take_dummies(fields),
            Stage::Master if word == b"master".as_slice() => self.take_master(alloc, fields),
            Stage::Shards | Stage::Faulty | Stage::Dummies | Stage::Master => {
                Err(LineError::Bad(Cause::Word))
            }
            Stage::Liars => self.take_at_liars(alloc, word, fields),
            Stage::Contracts => self.take_at_contracts(alloc, word, fields),
            Stage::Genesis => self.take_at_genesis(alloc, word, fields),
            Stage::Events => self.take_at_events(alloc, number, word, fields),
            Stage::Ended => Err(LineError::Bad(Cause::After)),
        }
    }

    fn finish(self) -> Option<Schedule> {
        match self.stage {
            Stage::Ended => Some(self.schedule),
            _ => None,
        }
    }
}

impl Draft {
    fn take_at_liars(
        &mut self,
        alloc: Global,
        word: &[u8],
        fields: &[&[u8]],
    ) -> Result<(), LineError>
        ensures { Moves result self.new (liars_place self.old word.now (views fields.now)) }
    {
        if word == b"liar".as_slice() {
            self.take_liar(fields)
        } else {
            self.take_at_contracts(alloc, word, fields)
        }
    }

    fn take_at_contracts(
        &mut self,
        alloc: Global,
        word: &[u8],
        fields: &[&[u8]],
    ) -> Result<(), LineError>
        ensures { Moves result self.new (contracts_place self.old word.now (views fields.now)) }
    {
        if word == b"contract".as_slice() {
            self.take_contract(alloc, fields)
        } else {
            self.take_at_genesis(alloc, word, fields)
        }
    }

    fn take_at_genesis(
        &mut self,
        alloc: Global,
        word: &[u8],
        fields: &[&[u8]],
    ) -> Result<(), LineError>
        ensures { Moves result self.new (genesis_place self.old word.now (views fields.now)) }
    {
        if word == b"genesis".as_slice() {
            self.take_genesis(alloc, fields)
        } else if word == b"run".as_slice() {
            self.take_run(fields)
        } else {
            Err(LineError::Bad(Cause::Word))
        }
    }

    fn take_at_events(
        &mut self,
        alloc: Global,
        line: u64,
        word: &[u8],
        fields: &[&[u8]],
    ) -> Result<(), LineError>
        ensures { Moves result self.new (events_place line self.old word.now (views fields.now)) }
    {
        if word == b"end".as_slice() {
            self.take_end(fields)
        } else {
            self.take_event(alloc, line, word, fields)
        }
    }
}
