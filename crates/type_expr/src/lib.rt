//! The typing of expressions.
#![tactic(auto)]

mod calls;
mod knot;

pub use calls::{
    check_arguments, check_binding, check_effect, check_fillings, check_indices, check_target,
    check_value, check_wanted,
};
