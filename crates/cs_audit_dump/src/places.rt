//! Which lines can stand at each place.
ghost use Rattle.std.specs.Prelude.{◌≡◌};
ghost use Rattle.cs_base.specs.Lines.{views};
ghost use Rattle.cs_text.specs.Reading.{Moves};
ghost use Rattle.cs_audit_dump.specs.Places.{before_place, dump_contracts_place, dump_genesis_place, logs_place, next_place, history_place};
ghost use Rattle.cs_audit_dump.specs.Text.{dump_form};

use crate::draft::{Draft, Stage};
use crate::dump::Dump;
use cs_text::{Cause, LineError, LineReader};
use std::alloc::Global;

impl LineReader for Draft {
    type Whole = Dump;

    ghost form = { dump_form };

    fn start(alloc: Global) -> Draft {
        Draft::new(alloc)
    }

    fn take_words(
        &mut self,
        alloc: Global,
        _number: u64,
        word: &[u8],
        fields: &[&[u8]],
    ) -> Result<(), LineError> {
        match self.stage {
            Stage::Before => {
                self.take_before(word, fields);
                Ok(())
            }
            Stage::Shards if word == b"shards".as_slice() => self.take_shards(fields),
            Stage::Faulty if word == b"faulty".as_slice() => self.take_faulty(fields),
            Stage::Dummies if word == b"dummies".as_slice() => self.take_dummies(fields),
            Stage::Shards | Stage::Faulty | Stage::Dummies => Err(LineError::Bad(Cause::Word)),
            Stage::Contracts => self.take_at_contracts(alloc, word, fields),
            Stage::Genesis => self.take_at_genesis(alloc, word, fields),
            Stage::Logs => self.take_at_logs(alloc, word, fields),
            Stage::History => self.take_at_history(alloc, word, fields),
            Stage::Ended => Err(LineError::Bad(Cause::After)),
        }
    }

    fn finish(self) -> Option<Dump> {
        match self.stage {
            Stage::Ended => Some(self.dump),
            _ => None,
        }
    }
}

impl Draft {
    fn take_before(&mut self, word: &[u8], fields: &[&[u8]])
        ensures { self.new ≡ before_place self.old word.now (views fields.now) }
    {
        if fields.is_empty() && word == b"dump".as_slice() {
            self.stage = Stage::Shards;
        }
    }

    fn take_at_contracts(
        &mut self,
        alloc: Global,
        word: &[u8],
        fields: &[&[u8]],
    ) -> Result<(), LineError>
        ensures { Moves result self.new (dump_contracts_place self.old word.now (views fields.now)) }
    {
        if word == b"contract".as_slice() {
            self.take_contract(alloc, fields)
        } else {
            self.take_at_genesis(alloc, word, fields)
        }
    }

    fn take_at_genesis(
        &mut self,
        alloc: Global,
        word: &[u8],
        fields: &[&[u8]],
    ) -> Result<(), LineError>
        ensures { Moves result self.new (dump_genesis_place self.old word.now (views fields.now)) }
    {
        if word == b"genesis".as_slice() {
            self.take_genesis(alloc, fields)
        } else {
            self.take_next(alloc, word, fields)
        }
    }

    fn take_next(&mut self, alloc: Global, word: &[u8], fields: &[&[u8]]) -> Result<(), LineError>
        ensures { Moves result self.new (next_place self.old word.now (views fields.now)) }
    {
        if self.dump.logs.len() < self.dump.config.shards as usize {
            if word == b"log".as_slice() {
                return self.take_log(alloc, fields);
            }
        } else if word == b"history".as_slice() {
            return self.take_history(fields);
        }
        Err(LineError::Bad(Cause::Word))
    }

    fn take_at_logs(
        &mut self,
        alloc: Global,
        word: &[u8],
        fields: &[&[u8]],
    ) -> Result<(), LineError>
        ensures { Moves result self.new (logs_place self.old word.now (views fields.now)) }
    {
        if self.leaves_left > 0 {
            if word == b"leaf".as_slice() {
                return self.take_leaf(alloc, fields);
            }
        } else if self.heads_left > 0 {
            if word == b"head".as_slice() {
                return self.take_head(alloc, fields);
            }
        } else {
            return self.take_next(alloc, word, fields);
        }
        Err(LineError::Bad(Cause::Word))
    }

    fn take_at_history(
        &mut self,
        alloc: Global,
        word: &[u8],
        fields: &[&[u8]],
    ) -> Result<(), LineError>
        ensures { Moves result self.new (history_place self.old word.now (views fields.now)) }
    {
        if self.txs_left > 0 {
            if word == b"tx".as_slice() {
                return self.take_tx(alloc, fields);
            }
        } else if word == b"end".as_slice() {
            return self.take_end(fields);
        }
        Err(LineError::Bad(Cause::Word))
    }
}
