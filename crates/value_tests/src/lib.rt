//! Whether a value has a type: the test of what typing says of values. It takes no memory.
#![tactic(auto)]

mod fields;
mod has;

pub use has::{all_have, has_value};
