//! What operators, built-in calls, hops and patterns answer of values of their types: they do answer, or trap, and what they
//! answer has the type of the result.
#![tactic(auto)]

mod laws;

pub use laws::{
    cases_match, cells_fit, changes_fit, fields_fit, hops_fit, made_values_fit, operators_fit,
    values_have_forms,
};
