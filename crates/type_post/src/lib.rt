//! The typing of chains of postfix parts.
#![tactic(auto)]

mod calls;
mod chains;
mod refusals;

pub use chains::{effect, indices, post};
