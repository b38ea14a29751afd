//! Checkers written in Rust: what they look at, the trait that keeps each to its rule, and the rules
//! `hashlock`, `sum` and `signed`, which stand before a book of contracts.
#![tactic(auto)]

mod hashlock;
mod kept;
mod messages;
mod rule;
mod ruling;
mod signed;
mod sum;
mod taking;
mod values;
mod view;

pub use hashlock::Hashlock;
pub use kept::Kept;
pub use messages::message;
pub use rule::Rule;
pub use ruling::RuledBook;
pub use signed::Signed;
pub use sum::Sum;
pub use view::NativeView;
