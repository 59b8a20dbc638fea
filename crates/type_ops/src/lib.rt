//! The typing of the forms of expressions: literals, names, lists, operators, chains of operators and ternaries.
#![tactic(auto)]

mod branches;
mod lists;
mod names;
mod operators;
mod strings;

pub use branches::ternary;
pub use lists::{all_wanted, listed};
pub use names::{implicit, myself, named, nil};
pub use operators::{chained, prefixed};
pub use strings::text;
