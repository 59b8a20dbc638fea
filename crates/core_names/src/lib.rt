//! The names of a checked program, as values and paths of it are printed with.
#![tactic(auto)]

mod kind;
mod spelled;

pub use spelled::names_of;
