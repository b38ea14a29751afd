//! Sealed datagrams: what is sent from one node or client to another, and under which keys.
#![tactic(auto)]

mod head;
mod input;
mod keys;
mod laws;
mod names;
mod opening;
mod raw;
mod reading;
mod sealing;
mod view;

pub use cs_wire_message::Message;
pub use head::{MAGIC, MAGIC_OF_BATCHES};
pub use input::{Input, Out};
pub use keys::{Keys, KeysError};
pub use laws::{
    datagrams_open_as_they_are_sealed, names_of_one_master_understand_each_other,
    sealed_datagrams_are_opened,
};
pub use names::{all_names, all_nodes, key_between};
pub use opening::{OpenError, open};
pub use raw::{a_message_is_sealed_by_kind_and_body, seal_with};
pub use reading::{keys_of_a_master_open_alike, read};
pub use sealing::{SealError, seal};
pub use view::MessageView;
