//! The type checker of contracts: which are well typed and cheap enough; and whether a text is
//! such a contract, with its costs, or what its first fault is, with line and column.
#![tactic(auto)]

mod calls;
mod checked;
mod declarations;
mod fault;
mod judging;
mod methods;
mod names;
mod objects;
mod position;
mod statements;

pub use checked::{Checked, accept};
pub use cs_types_kinds::{Costs, TypeError};
pub use fault::Fault;
pub use judging::{Unjudged, contracts_are_read, judged};
pub use position::{Position, position_at};
