//! Explanations of refused contract texts, and notes on accepted ones.
#![tactic(auto)]

mod comparing;
mod declared;
mod explaining;
mod found;
mod fronts;
mod mentions;
mod notes;
mod reasons;
mod standing;
mod wanted;
mod words;

pub use comparing::{Compared, LISTS};
pub use explaining::explained_line;
pub use fronts::{goes_on, wanted_tokens_can_stand};
pub use notes::put_notes;
pub use reasons::Reason;
pub use standing::{LITERALS, Literal};
pub use wanted::wanted_at;
pub use words::ORDER;
