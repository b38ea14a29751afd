//! The order of a single member.
ghost use Rattle.std.specs.Prelude.{◌≡◌, ◌+◌, false, None, IfOk, length};
ghost use Rattle.cs_order.specs.declared.answers.Took.{Took};
ghost use Rattle.cs_order.specs.Solo.{solo, SoloStands, SoloStarts, solo_rest, solo_turns, may_at};
ghost use Rattle.cs_order.specs.laws.SoloLaw.{solo_law, solo_undisturbed, solo_comes_to_rest, solo_holds, solo_begins, solo_bounded};

use crate::answers::{May, Outgoing, Step, Took};
use crate::kept_log::KeptLog;
use crate::order::Order;
use crate::proposed::Proposed;
use cs_base::{LAST_SLOT, Memory};
use std::alloc::Global;

/// The message of an order that sends none.
#[derive(Drop)]
pub struct NoMessage;

/// The order of a shard with one member: it chooses what is proposed, and takes no message.
#[derive(Drop)]
pub struct Solo {
    log: KeptLog,
    waiting: Option<Proposed>,
}

impl Solo {
    /// A member that has chosen nothing.
    pub fn new(alloc: Global) -> Self
        ensures { ⟦<Solo as Order>⟧.at_start result }
    {
        Solo {
            log: KeptLog::new(alloc),
            waiting: None,
        }
    }
}

impl Order for Solo {
    type Message = NoMessage;

    ghost rules = { solo };

    ghost stands = { λ s h. SoloStands s.log.first s.log.entries.items s.waiting h };

    ghost f = { λ s. 0 };

    ghost me = { λ s. 0 };

    ghost at_start = { λ s. SoloStarts s.log.first s.log.entries.items s.waiting };

    ghost awaits = { λ s. None };

    ghost allows = { λ s. may_at s.waiting };

    ghost rest = { λ s. solo_rest (s.log.first + length s.log.entries.items) s.waiting };

    ghost left = { solo_turns };

    ghost law = { solo_law };

    ghost undisturbed = { solo_undisturbed };

    ghost comes_to_rest = { solo_comes_to_rest };

    ghost holds = { solo_holds };

    ghost begins = { λ s. solo_begins s.log.first s.log.entries.items s.waiting };

    ghost belongs = { λ s h stands. (stands.f, stands.me) };

    ghost bounded = { λ s. solo_bounded (s.log.first + length s.log.entries.items) s.waiting };

    fn open_slot(&self) -> u64 {
        self.log.next()
    }

    fn view(&self) -> u16 {
        0
    }

    fn take(&mut self, _alloc: Global, _from: u16, _message: NoMessage) -> Result<Took, Memory>
        ensures refused { IfOk result (λ took. took ≡ Took.Old) }
        ensures stays { self.new ≡ self.old }
    {
        Ok(Took::Old)
    }

    fn entry(&self, slot: u64) -> Option<&Proposed> {
        self.log.get(slot)
    }

    fn advance(
        &mut self,
        alloc: Global,
        _out: &mut Vec<Outgoing<NoMessage>>,
    ) -> Result<Step, Memory> {
        if self.log.next() >= LAST_SLOT {
            return Ok(Step::Quiet);
        }
        match self.waiting.take() {
            None => Ok(Step::Quiet),
            Some(entry) => {
                let chosen = entry.copy(alloc)?;
                self.log.push(entry)?;
                Ok(Step::Chosen(chosen))
            }
        }
    }

    fn pending(&self) -> Option<&Proposed> {
        None
    }

    fn echo(&mut self, _alloc: Global, _out: &mut Vec<Outgoing<NoMessage>>) -> Result<(), Memory> {
        Ok(())
    }

    fn may_propose(&self, _alloc: Global) -> Result<May, Memory> {
        match self.waiting {
            None => Ok(May::Free),
            Some(_) => Ok(May::No),
        }
    }

    fn propose(
        &mut self,
        _alloc: Global,
        entry: Proposed,
        _out: &mut Vec<Outgoing<NoMessage>>,
    ) -> Result<(), Memory> {
        self.waiting = Some(entry);
        Ok(())
    }

    fn resend(&self, _alloc: Global, _out: &mut Vec<Outgoing<NoMessage>>) -> Result<(), Memory> {
        Ok(())
    }

    fn tick(
        &mut self,
        _alloc: Global,
        _due: bool,
        _out: &mut Vec<Outgoing<NoMessage>>,
    ) -> Result<(), Memory> {
        Ok(())
    }

    fn reply(
        &self,
        _alloc: Global,
        _slot: u64,
        _to: u16,
        _out: &mut Vec<Outgoing<NoMessage>>,
    ) -> Result<bool, Memory>
        ensures refused { IfOk result (λ answer. answer ≡ false) }
        ensures stays { _out.new.items ≡ _out.old.items }
    {
        Ok(false)
    }

    fn cut(&mut self, slot: u64) {
        self.log.cut(slot);
    }
}

#[cfg(test)]
mod tests {
    use super::*;
    use crate::agreement::logs_agree;
    use cs_base::Sequence;
    use std::test::Fail;

    fn entry(alloc: Global, name: u8) -> Result<Proposed, Memory> {
        let bytes = Vec::from_slice(alloc, &[name, 7])?;
        Ok(Proposed {
            digest: [name; 32],
            bytes: Sequence::from_vec(bytes),
        })
    }

    /// What a caller that knows no more than the trait makes of an entry: the step that it led to.
    fn decide<O: Order>(
        order: &mut O,
        alloc: Global,
        entry: Proposed,
    ) -> Result<Option<Proposed>, Memory> {
        let mut out = Vec::new(alloc);
        if let May::Free = order.may_propose(alloc)? {
            order.propose(alloc, entry, &mut out)?;
        }
        order.resend(alloc, &mut out)?;
        match order.advance(alloc, &mut out)? {
            Step::Chosen(chosen) => Ok(Some(chosen)),
            Step::Moved | Step::Quiet => Ok(None),
        }
    }

    /// Gives up all that it has chosen.
    fn cut_all<O: Order>(order: &mut O) {
        let open = order.open_slot();
        order.cut(open);
    }

    #[test]
    fn a_caller_of_the_trait(rt: HostRuntime) -> Result<(), Fail> {
        let alloc = rt.alloc();
        let mut solo = Solo::new(alloc);
        let mut out = Vec::new(alloc);
        for name in [1, 2] {
            let chosen = decide(&mut solo, alloc, entry(alloc, name)?)?;
            let wanted = Some(entry(alloc, name)?);
            assert!(rt; chosen == wanted, "{name}");
            assert!(rt; solo.entry(u64::from(name) - 1) == wanted.as_ref());
            assert_eq!(rt; solo.open_slot(), u64::from(name));
        }
        assert!(rt; solo.take(alloc, 1, NoMessage)? == Took::Old);
        solo.echo(alloc, &mut out)?;
        solo.tick(alloc, true, &mut out)?;
        assert!(rt; !solo.reply(alloc, 0, 1, &mut out)?);
        assert!(rt; solo.pending().is_none() && solo.entry(2).is_none());
        assert!(rt; solo.view() == 0 && out.is_empty());
        cut_all(&mut solo);
        assert!(rt; solo.entry(1).is_none());
        assert_eq!(rt; solo.open_slot(), 2);
        let wanted = Some(entry(alloc, 3)?);
        assert!(rt; decide(&mut solo, alloc, entry(alloc, 3)?)? == wanted);
        assert!(rt; solo.entry(2) == wanted.as_ref());
        logs_agree::<Solo>();
        Ok(())
    }
}
