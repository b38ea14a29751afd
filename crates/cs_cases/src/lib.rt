//! Cases of a contract: calls of its methods and what is asked of them, a line each, and how values
//! and objects are printed as the language writes them.
#![tactic(auto)]

mod case;
mod grammar;
mod judging;
mod printing;
mod text;
mod values;

pub use case::{Asked, Case, Wanted};
pub use printing::{put_objects, put_values};
pub use text::{CasesError, Cause, Refused, read_cases};
