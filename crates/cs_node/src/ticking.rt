//! What a node does as time passes.
ghost use Rattle.std.specs.Prelude.{OnOk, is_some};
ghost use Rattle.cs_node_state.specs.Admission.{due};
ghost use Rattle.cs_node_rules.specs.Trail.{again_marks, waiting_marks, tick_marks};
ghost use Rattle.cs_node.specs.Cores.{LeadsBy};

use crate::draft::Draft;
use crate::engine::Engine;
use crate::handing::hand_out;
use crate::sending::{ask_again, want};
use cs_base::Memory;
use cs_node_wire::Carried;
use cs_tx::Judge;
use std::alloc::Global;

impl<O: Carried, J: Judge + Drop> Engine<O, J> {
    /// Says again what others may have missed, and lets the order wait a tick longer.
    pub(crate) fn tick(&mut self, alloc: Global, draft: &mut Draft) -> Result<(), Memory>
        ensures { LeadsBy O.stands J.is_approved O.rules O.carrier self.old self.new
            draft.old draft.new result (λ site v. tick_marks site v) }
    {
        self.say_again(alloc, draft)?;
        self.wait(alloc, draft)?;
        Ok(())
    }

    fn say_again(&self, alloc: Global, draft: &mut Draft) -> Result<(), Memory>
        ensures { LeadsBy O.stands J.is_approved O.rules O.carrier self.now self.now
            draft.old draft.new result (λ site v. again_marks site v) }
    {
        let mut outgoing = Vec::new(alloc);
        self.order.resend(alloc, &mut outgoing)?;
        hand_out::<O>(alloc, &self.sbac, draft, outgoing)?;
        ask_again(alloc, &self.sbac, draft)?;
        let slot = self.order.open_slot();
        want(alloc, &self.sbac, draft, slot)?;
        Ok(())
    }

    fn wait(&mut self, alloc: Global, draft: &mut Draft) -> Result<(), Memory>
        ensures { LeadsBy O.stands J.is_approved O.rules O.carrier self.old self.new
            draft.old draft.new result
            (λ site v. waiting_marks site v (is_some (due site.setup v.bench.pool))) }
    {
        let slot = self.order.open_slot();
        let view = self.order.view();
        let due = self.sbac.due(alloc)?.is_some();
        let mut outgoing = Vec::new(alloc);
        self.order.tick(alloc, due, &mut outgoing)?;
        self.say_moved(alloc, draft, slot, view, outgoing)?;
        Ok(())
    }
}
