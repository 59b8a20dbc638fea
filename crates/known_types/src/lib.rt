//! The types of properties and environment keys without a written type.
#![tactic(auto)]

mod fill;
mod open;
mod rounds;

pub use rounds::complete_table;
