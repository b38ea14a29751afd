//! What the checks of contracts work on: values and objects that are shared, operators and their
//! traps, names, and views.
#![tactic(auto)]

mod arithmetic;
mod fields;
mod fitting;
mod held;
mod limits;
mod names;
mod objects;
mod operators;
mod steps;
mod stop;
mod view;

pub use fields::{field_of, is_called, returned_int};
pub use fitting::{fill, fill_slot, has_kind};
pub use held::Held;
pub use limits::MOST_VALUE;
pub use names::Names;
pub use objects::Objects;
pub use operators::{
    Binary, Unary, apply_binary, apply_unary, decides, list_of, number, with_item, with_value,
};
pub use steps::Steps;
pub use stop::{Cause, Stop};
pub use view::{Dep, LentDep, LentView, View};
