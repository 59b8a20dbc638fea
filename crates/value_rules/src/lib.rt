//! What each kind of expression becomes: the rules, the searches, and that they agree.
#![tactic(auto)]

mod laws;

pub use laws::{one_value, searches_find_values};
