//! A type that is found of an initial value is a type of values: it names data structs and enums alone.
#![tactic(auto)]

mod laws;

pub use laws::{completed_is_of_values, found_is_of_values, inferred_is_of_values};
