//! The table of the declarations of a source file.
#![tactic(auto)]

mod forms;
mod heads;
mod number;
mod places;
mod signatures;
mod sizes;
mod tables;

pub use forms::argument_of;
pub use number::{after, narrow};
pub use tables::{build_table, preferences, with_members};
