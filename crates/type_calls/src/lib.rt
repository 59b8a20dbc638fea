//! Arguments of functions, and what the calls of built-in functions become.
#![tactic(auto)]

mod argument_lists;
mod built_in_calls;

pub use argument_lists::{arguments, begins_labelled, expr_of, given_core, is_labelled};
pub use built_in_calls::{
    after_change, asked, built_in_called, built_in_parameters, changed, described,
    method_parameters,
};
