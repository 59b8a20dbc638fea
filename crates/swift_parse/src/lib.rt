//! The grammar of a source file: its pieces and their members, over the expressions and statements below.
#![tactic(auto)]

mod bodies;
mod faults;
mod file;
mod laws;
mod lists;
mod members;
mod params;
mod pieces;
mod words;

pub use faults::ParseFault;
pub use file::parse;
pub use laws::one_source;

#[cfg(test)]
mod tests;
