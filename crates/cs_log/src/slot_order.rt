//! The order of a member among 3f+1.
ghost use Rattle.std.specs.Prelude.{◌≡◌, ◌*◌, ◌≤◌, IfOk};
ghost use Rattle.cs_order_rules.specs.SlotMachine.{slot_machine, slot_rest};
ghost use Rattle.cs_order_law.specs.laws.SlotLaw.{slot_law, slot_undisturbed};
ghost use Rattle.cs_order_law.specs.laws.Starting.{slot_comes_to_rest};
ghost use Rattle.cs_order_law.specs.laws.Held.{slot_holds};
ghost use Rattle.cs_log.specs.Stands.{ReplicaStands, ReplicaStarts, f_of, me_of, awaited, allowed, rest_left};
ghost use Rattle.cs_log.specs.laws.Standing.{replica_begins, replica_belongs, rest_bounded};

use crate::replica::Replica;
use cs_base::{Memory, Whole};
use cs_order::{May, Order, Outgoing, Proposed, Step, Took};
use cs_order_rules::OrderMessage;
use std::alloc::Global;
use std::marker::Model;

/// The order of a member among 3f+1, of which f may lie.
///
/// After a want of memory it does nothing more: its calls answer that again, or nothing.
#[derive(Drop)]
pub struct SlotOrder {
    replica: Replica,
    whole: Whole,
}

impl Model for SlotOrder {
    ghost use Rattle.std.specs.Prelude.{Option};
    ghost use Rattle.cs_log.specs.Replicas.{KeptReplica};
    ghost use Rattle.cs_log.specs.Stands.{kept_if, IsLed};

    ghost Value = { Option KeptReplica };

    ghost view = { λ s. kept_if s.whole s.replica };

    ghost invariant = { λ s. IsLed (kept_if s.whole s.replica) };
}

impl SlotOrder {
    /// A member that has done nothing.
    pub fn new(alloc: Global, f: u16, me: u16) -> Result<SlotOrder, Memory>
        requires few { f ≤ 5 }
        requires member { me ≤ 3 * f }
        ensures starts { IfOk result (λ order. ⟦<SlotOrder as Order>⟧.at_start order) }
        ensures whose { IfOk result (λ order. (f_of order ≡ f) × (me_of order ≡ me)) }
    {
        let replica = Replica::new(alloc, f, me)?;
        Ok(SlotOrder {
            replica,
            whole: Whole::new(),
        })
    }
}

impl Order for SlotOrder {
    type Message = OrderMessage;

    ghost rules = { slot_machine };

    ghost stands = { λ s h. ReplicaStands s h };

    ghost f = { λ s. f_of s };

    ghost me = { λ s. me_of s };

    ghost at_start = { λ s. ReplicaStarts s };

    ghost awaits = { λ s. awaited s };

    ghost allows = { λ s. allowed s };

    ghost rest = { λ s. rest_left s };

    ghost left = { slot_rest };

    ghost law = { slot_law };

    ghost undisturbed = { slot_undisturbed };

    ghost comes_to_rest = { slot_comes_to_rest };

    ghost holds = { slot_holds };

    ghost begins = { λ s. replica_begins s };

    ghost belongs = { λ s h stands. replica_belongs s h stands };

    ghost bounded = { λ s. rest_bounded s };

    fn open_slot(&self) -> u64 {
        self.replica.open_slot()
    }

    fn view(&self) -> u16 {
        self.replica.view()
    }

    fn take(&mut self, alloc: Global, from: u16, message: OrderMessage) -> Result<Took, Memory> {
        self.whole.check()?;
        if from > 3 * self.replica.f() || from == self.replica.me() {
            return Ok(Took::Leader);
        }
        self.whole.begin()?;
        let took = self.replica.take(alloc, from, message)?;
        self.whole.end();
        Ok(took)
    }

    fn entry(&self, slot: u64) -> Option<&Proposed> {
        self.replica.entry(slot)
    }

    fn advance(
        &mut self,
        alloc: Global,
        out: &mut Vec<Outgoing<OrderMessage>>,
    ) -> Result<Step, Memory> {
        self.whole.begin()?;
        let step = self.replica.advance(alloc, out)?;
        self.whole.end();
        Ok(step)
    }

    fn pending(&self) -> Option<&Proposed> {
        if !self.whole.is_whole() {
            return None;
        }
        self.replica.pending()
    }

    fn echo(&mut self, alloc: Global, out: &mut Vec<Outgoing<OrderMessage>>) -> Result<(), Memory> {
        self.whole.begin()?;
        self.replica.echo(alloc, out)?;
        self.whole.end();
        Ok(())
    }

    fn may_propose(&self, alloc: Global) -> Result<May, Memory> {
        if !self.whole.is_whole() {
            return Ok(May::No);
        }
        self.replica.may_propose(alloc)
    }

    fn propose(
        &mut self,
        alloc: Global,
        entry: Proposed,
        out: &mut Vec<Outgoing<OrderMessage>>,
    ) -> Result<(), Memory> {
        self.whole.begin()?;
        self.replica.propose(alloc, entry, out)?;
        self.whole.end();
        Ok(())
    }

    fn resend(&self, alloc: Global, out: &mut Vec<Outgoing<OrderMessage>>) -> Result<(), Memory> {
        self.whole.check()?;
        self.replica.resend(alloc, out)
    }

    fn tick(
        &mut self,
        alloc: Global,
        due: bool,
        out: &mut Vec<Outgoing<OrderMessage>>,
    ) -> Result<(), Memory> {
        self.whole.begin()?;
        self.replica.tick(alloc, due, out)?;
        self.whole.end();
        Ok(())
    }

    fn reply(
        &self,
        alloc: Global,
        slot: u64,
        to: u16,
        out: &mut Vec<Outgoing<OrderMessage>>,
    ) -> Result<bool, Memory> {
        self.whole.check()?;
        self.replica.reply(alloc, slot, to, out)
    }

    fn cut(&mut self, slot: u64) {
        if !self.whole.is_whole() {
            return;
        }
        self.replica.cut(slot);
    }
}
