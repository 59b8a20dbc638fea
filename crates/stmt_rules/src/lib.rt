//! The typing rules of statements: the rules, the searches, and that they agree.
#![tactic(auto)]

mod done;
mod laws;

pub use done::{Arms, Bodies, Body, Done, Exits};
pub use laws::{blocks_are_found, bodies_are_found, one_block, one_body};
