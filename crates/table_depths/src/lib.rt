//! The completed table has no data struct that is deeper than a type may be, where none is found that is.
#![tactic(auto)]

mod laws;

pub use laws::structs_are_shallow;
