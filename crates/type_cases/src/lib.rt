//! The typing of what statements and builders share: conditions, the cases of a `switch`, and what a loop goes over.
#![tactic(auto)]

mod apart;
mod cases;
mod complete;
mod conditions;
mod keys;
mod labels;
mod names;
mod overs;
mod patterns;

pub use cases::check_subject;
pub use conditions::check_conditions;
pub use overs::check_over;
