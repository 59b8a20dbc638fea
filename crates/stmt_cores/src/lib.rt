//! What the typing rules of conditions, loops, patterns and statements relate is well typed.
#![tactic(auto)]

mod laws;

pub use laws::{
    blocks_are_well_typed, bodies_are_well_typed, conditions_are_well_typed, overs_are_well_typed,
    subjects_are_well_typed,
};
