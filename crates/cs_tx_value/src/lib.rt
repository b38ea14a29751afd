//! Values and objects of contracts, and the one encoding that each has.
#![tactic(auto)]

mod copying;
mod digest;
mod encoded;
mod equality;
mod fitting;
mod form;
mod key;
mod lists;
mod name;
mod numbers;
mod object;
mod pair;
mod passing;
mod reading;
mod room;
mod value;
mod writing;

pub use digest::Digest;
pub use encoded::Encoded;
pub use form::FormError;
pub use lists::{
    copy_each, each_fits, few_fit, read_counted, read_many, read_some, room_counted, room_each,
    skip_counted, skip_many, skip_some, write_counted, write_each,
};
pub use name::Name;
pub use object::Object;
pub use value::Value;
