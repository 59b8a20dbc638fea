//! What is declared twice, and what holds itself.
#![tactic(auto)]

mod built_in;
mod deep;
mod names;
mod twice;

pub use deep::find_recursive;
pub use names::Named;
pub use twice::find_twice;
