//! Lines of a text, what their fields say, and one reader of them.
#![tactic(auto)]

mod cause;
mod error;
mod reader;
mod values;

pub use cause::{Cause, Refusal, refusal_line};
pub use error::{LineError, TextError};
pub use reader::{LineReader, parse_text, refusals_name_the_first_bad_line};
pub use values::{
    no_field, only_field, only_number, read_bytes_within, read_digest, read_digest_line,
    read_field_number, read_number_within,
};
