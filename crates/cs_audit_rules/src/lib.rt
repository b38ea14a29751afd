//! What an auditor tests of a dump, as definitions: the rules and the first that is broken; and what
//! a sound dump is, by definitions that know no auditor. A dump of which no rule is broken is sound.
#![tactic(auto)]

mod law;
mod verdict;

pub use law::unbroken_dumps_are_sound;
pub use verdict::{Fault, Rule, Verdict};
