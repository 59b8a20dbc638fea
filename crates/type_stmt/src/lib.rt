//! The typing of statements.
#![tactic(auto)]

mod api;
mod blocks;
mod branches;
mod knot;
mod loops;
mod simple;
mod within;

pub use api::{check_block, check_body};
