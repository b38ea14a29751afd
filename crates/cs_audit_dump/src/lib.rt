//! Dumps: what they hold, and the reader of their text.
#![tactic(auto)]

mod draft;
mod dump;
mod law;
mod limits;
mod lines;
mod places;
mod reader;

pub use dump::{Dump, Log};
pub use law::{dumps_are_read_behind_lines, printed_dumps_are_read};
pub use limits::MOST_DUMP;
pub use reader::parse_dump;
