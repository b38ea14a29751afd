//! What the call of a contract's method makes: a transaction that the book approves, or the first
//! cause why there is none. A procedure is run by its statements, and by those of the methods it
//! calls.
#![tactic(auto)]

mod answering;
mod binding;
mod call;
mod error;
mod procedures;
mod procedures_running;
mod running;
mod statements;
mod token;

pub use answering::run_method;
pub use call::Call;
pub use error::ProcError;
pub use procedures::run_procedure;
pub use running::run_in;
