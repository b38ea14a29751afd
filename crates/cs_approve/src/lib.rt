//! Books of contracts, by which nodes approve transactions.
#![tactic(auto)]

mod book;
mod judging;
mod token;
mod views;

pub use book::{Book, BookError};
pub use judging::books_approve_what_they_say;
pub use views::lend_view;
