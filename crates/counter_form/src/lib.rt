//! The form in which a program of one counter and a script of taps are written.
#![tactic(auto)]

mod app;
mod pieces;
mod script;

pub use app::{FormFault, read_app};
pub use script::read_script;

#[cfg(test)]
mod tests;
