//! Which members reach a write, through the calls of one by another.
#![tactic(auto)]

mod callers;
mod search;
mod visits;

pub use search::{Conduct, reaching};
