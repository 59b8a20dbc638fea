//! What modifiers make of a view.
#![tactic(auto)]

mod arguments;
mod makes;
mod modified;

pub use modified::modifiers_from;
