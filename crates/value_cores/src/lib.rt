//! What the typing rules of expressions relate is well typed.
#![tactic(auto)]

mod laws;

pub use laws::{
    arguments_are_well_typed, bindings_are_well_typed, effects_are_well_typed,
    fillings_are_well_typed, indices_are_well_typed, targets_are_well_typed, values_are_well_typed,
    wanted_values_are_well_typed,
};
