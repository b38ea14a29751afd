//! What every crate stands on: lists, fields of bytes, configuration, names of nodes and keys,
//! lines of text, values that are changed in steps; and what a program reads from and prints to.
#![tactic(auto)]

mod compare;
mod config;
mod cursor;
mod failures;
mod hex_text;
mod key;
mod limits;
mod line;
mod mem_sink;
mod mem_source;
mod memory;
mod node_id;
mod number;
mod outside;
mod printing;
mod reading;
mod sequence;
mod version;
mod whole;
mod writer;

pub use config::{Config, ConfigField, OutOfRange};
pub use cursor::{Cursor, Short};
pub use failures::Failures;
pub use hex_text::{print_bytes, printed_bytes_are_read, read_bytes};
pub use key::{Key, keys_are_ordered_by_bytes, shard_of};
pub use limits::{
    BOOK_PLACES, LAST_SLOT, LAST_VERSION, LAST_VIEW, LEAST_DATAGRAM, MOST_ACTIONS, MOST_BATCH,
    MOST_BODY, MOST_DATAGRAM, MOST_DUMMIES, MOST_ECHOED, MOST_ENTRY, MOST_EVENTS, MOST_GENESIS,
    MOST_LIARS, MOST_OBJECT, MOST_PLACES, MOST_READERS, MOST_SCHEDULE, MOST_SENT, MOST_SESSION,
    MOST_SHARDS, MOST_TX, MOST_WAITING, SLOTS_AHEAD, VIEW_BOUND,
};
pub use line::{fields, place_of, split_at_byte, strip_return};
pub use mem_sink::{MemSink, NullSink};
pub use mem_source::MemSource;
pub use memory::Memory;
pub use node_id::{CLIENT_SHARD, CLIENTS, NodeId, printed_node_is_read, read_node};
pub use number::{printed_number_is_read, read_number};
pub use outside::{Got, Put, Sink, Source};
pub use printing::{WriteError, print};
pub use reading::{ReadError, read_text};
pub use sequence::Sequence;
pub use version::Version;
pub use whole::Whole;
pub use writer::Writer;
