//! The store of the cells of live views.
#![tactic(auto)]

mod state;
mod table;
#[cfg(test)]
mod tests;
mod weigh;

pub use state::{EnterStop, State};
