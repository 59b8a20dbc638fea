//! The typing rules of conditions, of what a loop goes over and of the patterns of a `switch`, which statements and
//! builders share: the rules, the searches, and that they agree.
#![tactic(auto)]

mod laws;
mod subject;

pub use laws::{conditions_are_found, overs_are_found, subjects_are_found};
pub use subject::Subject;
