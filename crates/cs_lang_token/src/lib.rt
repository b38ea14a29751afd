//! Tokens of the contract language, and grammars over them.
#![tactic(auto)]

mod boxed;
mod cursor;
mod kind;
mod lexeme;
mod limits;
mod token;
mod tokens;

pub use boxed::Boxed;
pub use cursor::{Cursor, Stop};
pub use kind::Kind;
pub use limits::{
    LIST_TURNS, MOST_BYTES, MOST_COST, MOST_DIGITS, MOST_FIELDS, MOST_ITEMS, MOST_LEVELS,
    MOST_LISTS, MOST_METHODS, MOST_NAME, MOST_NUMBER, MOST_OPERATORS, MOST_STEPS, MOST_TEXT,
    MOST_TURNS, MOST_TYPES,
};
pub use token::{Number, Text, Token};
pub use tokens::{LexError, tokens_of};
