//! What the typing rules of the modifiers whose arguments are values relate is well typed.
#![tactic(auto)]

mod laws;

pub use laws::value_calls_are_well_typed;
