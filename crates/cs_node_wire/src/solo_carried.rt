//! The order of a single member, which has no message to carry.
ghost use Rattle.cs_node_wire.specs.SoloCarried.{solo_carrier, solo_carries};

use crate::carried::Carried;
use cs_base::{Memory, Version};
use cs_order::{NoMessage, Solo};
use cs_wire_message::Message;
use std::alloc::Global;

impl Carried for Solo {
    ghost carrier = { solo_carrier };

    ghost carries = { solo_carries };

    fn write(_alloc: Global, _message: &NoMessage, _version: Version) -> Result<Message, Memory> {
        Ok(Message::Want { slot: 0 })
    }

    fn read(
        _alloc: Global,
        _message: Message,
        _version: Version,
    ) -> Result<Option<NoMessage>, Memory> {
        Ok(None)
    }
}
