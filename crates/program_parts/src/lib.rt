//! The parts of a source file against the table of its declarations: the core of each, and who writes in a body.
#![tactic(auto)]

mod check;
mod writers;

pub use check::check_parts;
pub use writers::{find_writer, find_writers};
