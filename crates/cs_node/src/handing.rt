//! What an order hands out.
ghost use Rattle.std.specs.Prelude.{OnOk};
ghost use Rattle.cs_node_rules.specs.Trail.{out_signs, handed};
ghost use Rattle.cs_node.specs.Notes.{TellsSigns};
ghost use Rattle.cs_node.specs.Cores.{AtEverySite};

use crate::draft::Draft;
use crate::members::{is_other_member, others};
use cs_base::{Memory, NodeId, Version};
use cs_node_wire::Carried;
use cs_order::Outgoing;
use cs_sbac::Sbac;
use std::alloc::Global;

// Says one message to another member, or to all others.
fn say_out<O: Carried>(
    alloc: Global,
    sbac: &Sbac,
    draft: &mut Draft,
    out: Outgoing<O::Message>,
) -> Result<(), Memory>
    ensures { AtEverySite O.rules O.carrier sbac.now (λ site.
        OnOk result (TellsSigns (out_signs site sbac.now.me out.to out.message) draft.old draft.new)) }
{
    let me = sbac.me();
    let message = O::write(alloc, &out.message, Version::One)?;
    match out.to {
        None => {
            let names = others(alloc, sbac.config(), me, &[me.shard])?;
            draft.say_to(names, message)
        }
        Some(index) => {
            let name = NodeId {
                shard: me.shard,
                index,
            };
            if !is_other_member(sbac.config(), me, name) {
                return Ok(());
            }
            draft.say(alloc, name, message)
        }
    }
}

/// Says what an order handed out.
pub fn hand_out<O: Carried>(
    alloc: Global,
    sbac: &Sbac,
    draft: &mut Draft,
    outgoing: Vec<Outgoing<O::Message>>,
) -> Result<(), Memory>
    ensures { AtEverySite O.rules O.carrier sbac.now (λ site.
        OnOk result (TellsSigns (handed site sbac.now.me outgoing.items) draft.old draft.new)) }
{
    for out in outgoing {
        say_out::<O>(alloc, sbac, draft, out)?;
    }
    Ok(())
}
