//! Whether code may be run in a frame over cells: exactly what its run asks. It takes no memory.
#![tactic(auto)]

mod codes;
mod public;

pub use public::{body_fits, eval_fits};
