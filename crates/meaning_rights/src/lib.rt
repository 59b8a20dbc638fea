//! A well typed term always has a meaning: in a world that fits its context it gives a value of its type, or traps.
#![tactic(auto)]

mod laws;

pub use laws::{actions_are_right, actions_keep_cells, evaluations_are_right, terms_have_meanings};
