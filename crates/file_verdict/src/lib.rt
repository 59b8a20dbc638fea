//! The verdict on a source file: the declarations and the code that it spells, or why it spells none.
#![tactic(auto)]

mod judging;
mod verdict;

pub use verdict::verdict_of;
pub use verdict_rules::{Program, Refusal};
