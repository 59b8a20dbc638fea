//! The run of a body: its description, and what it looked up.
#![tactic(auto)]

mod bodies;
mod items;
mod knot;

pub use bodies::run_body;
