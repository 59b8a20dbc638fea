//! What the typing rules of builders relate is well typed.
#![tactic(auto)]

mod laws;

pub use laws::{builders_are_well_typed, scenes_are_well_typed};
