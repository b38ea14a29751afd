//! Orders whose messages go between nodes.
ghost use Rattle.std.specs.Prelude.{◌≡◌, IfOk};
ghost use Rattle.cs_base.specs.declared.version.Version.{Version as Edition};
ghost use Rattle.cs_wire_message.specs.Message.{MessageFits};
ghost use Rattle.cs_node_rules.specs.Site.{Carriers};
ghost use Rattle.cs_node_rules.specs.Carrying.{AllCarry};

use cs_base::{Memory, Version};
use cs_order::Order;
use cs_wire_message::Message;
use std::alloc::Global;

/// An order whose messages are carried by those of nodes.
pub trait Carried: Order {
    /// How nodes carry the order's messages in each version: what is written for one, and what is
    /// read.
    ghost carrier: { Carriers Self.Message };

    /// The message of nodes that carries the order's.
    fn write(alloc: Global, message: &Self::Message, version: Version) -> Result<Message, Memory>
        ensures said { IfOk result (λ said. said ≡ (carrier version).written message.now) }
        ensures fits { IfOk result (MessageFits version) };

    /// The order's message that is carried, if one is.
    fn read(
        alloc: Global,
        message: Message,
        version: Version,
    ) -> Result<Option<Self::Message>, Memory>
        requires { MessageFits version message }
        ensures { IfOk result (λ found. found ≡ (carrier version).read message) };

    /// What the order may ask of this.
    ghost carries: { AllCarry Self.Order.rules carrier };
}
