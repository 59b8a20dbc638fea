//! Whether the values at places have the types that are asked of them. It takes no memory.
#![tactic(auto)]

mod asks;
mod laws;
mod nested;
mod slots;
mod walks;

pub use asks::{Asked, Asks};
pub use laws::{answered_by_agreeing, candidates_are_all, walks_are_right};
pub use slots::answers;
