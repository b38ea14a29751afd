//! The contract language: its trees, and their reader.
#![tactic(auto)]

mod contract;
mod expressions;
mod kinds;
mod methods;
mod nodes;
mod statements;
mod text;
mod tree;

pub use contract::Contract;
pub use cs_lang_token::{Boxed, Number, Text};
pub use text::{LangError, parse};
pub use tree::{
    Access, Action, Block, Comparison, ContractTree, Expr, Field, Link, Method, Operator, Rank,
    Shape, Slot, Statement, Step, TypeDef, ValueKind,
};
