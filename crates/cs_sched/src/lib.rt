//! Schedules: what they hold, the reader of their text, and the printer.
#![tactic(auto)]

mod draft;
mod events;
mod law;
mod limits;
mod line_printing;
mod lines;
mod name_set;
mod naming;
mod places;
mod printing;
mod reader;
mod schedule;
mod values;

pub use draft::{genesis_name, least_config};
pub use law::printed_schedules_are_read;
pub use limits::MOST_CONTRACTS;
pub use lines::{read_contract_line, read_dummies, read_faulty, read_object_line, read_shards};
pub use name_set::NameSet;
pub use naming::is_liar;
pub use printing::print;
pub use reader::{parse, refusals_name_the_first_bad_line};
pub use schedule::{Event, Schedule};
