//! Values whose parts are shared: to hold one once more, to put it into a list, or to take an item
//! out of one copies nothing, however much it holds.
#![tactic(auto)]

mod copies;
mod measure;
mod objects;
mod shared;

pub use copies::{owned_of, shared_of, value_of};
pub use objects::SharedObject;
pub use shared::{Open, Shared};
