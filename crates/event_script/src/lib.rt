//! The events of a script: taps on cells, a line for each.
#![tactic(auto)]

mod event;
mod line;
mod script;
mod words;

pub use event::{Event, ScriptFault};
pub use script::read_script;

#[cfg(test)]
mod tests;
