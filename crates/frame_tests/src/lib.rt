//! Whether a frame and the cells have what a piece of code asks of them. It takes no memory.
#![tactic(auto)]

mod asks;
mod frames;
mod laws;
mod plain;

pub use frames::frame_fits;
pub use laws::frames_are_tested;
