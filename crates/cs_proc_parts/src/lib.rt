//! What procedures work on: the objects that are left and the traces so far, the slots that they
//! fill, and how a method begins and ends.
#![tactic(auto)]

mod beginning;
mod closing;
mod ending;
mod keyed;
mod outputs;
mod progress;

pub use beginning::open;
pub use closing::close;
pub use ending::{Ending, Halt};
pub use keyed::Keyed;
pub use outputs::Outputs;
pub use progress::{Doing, Front, Opened, Progress};
