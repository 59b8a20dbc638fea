//! The typing of builders: view expressions, their modifiers, `let`, `if` and `switch`.
#![tactic(auto)]

mod api;
mod items;

pub use api::{check_builder, check_scene};
