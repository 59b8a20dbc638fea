//! Edges on two linked lists at once: that of their reader and that of their source.
//!
//! An edge is linked in and taken out without a search, whatever the number of other edges. The nodes are linked
//! by raw pointers, which `heap` alone follows.
#![tactic(auto)]

mod heap;
mod lists;
mod loose;
mod node;
mod spare;

pub use lists::{Edge, EdgeLists};

#[cfg(test)]
mod tests;
