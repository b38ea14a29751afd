//! Messages that are still bytes of a datagram.
ghost use Rattle.std.specs.Prelude.{◌≡◌, IfOk};
ghost use Rattle.cs_wire_message.specs.Body.{IsBody, Has};
ghost use Rattle.cs_wire.specs.Opens.{ShowsMessage};

use cs_base::{Memory, Version};
use cs_wire_message::{Message, message_in};
use std::alloc::Global;

/// A message that stands in a datagram, which it borrows.
#[derive(Clone, Copy)]
pub struct MessageView<'a> {
    pub(crate) version: Version,
    pub(crate) kind: u8,
    pub(crate) body: &'a [u8],
}

impl<'a> MessageView<'a> {
    /// The number of the kind.
    pub fn kind(&self) -> u8
        ensures { result ≡ self.now.kind }
    {
        self.kind
    }

    /// The message.
    pub fn to_message(&self, alloc: Global) -> Result<Message, Memory>
        ensures { IfOk result (λ message. ShowsMessage self.now message) }
    {
        match message_in(alloc, self.kind, self.body, self.version) {
            Ok(message) => Ok(message),
            Err(_) => Err(Memory),
        }
    }
}
