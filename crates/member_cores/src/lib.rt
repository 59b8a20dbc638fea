//! What the typing rules of members relate is well typed.
#![tactic(auto)]

mod laws;

pub use laws::{defaults_are_well_typed, members_are_well_typed};
