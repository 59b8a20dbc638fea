//! What expressions, statements and pieces of code of a checked program mean, and the law on what a body looks up.
#![tactic(auto)]

mod origin;
mod parts;

pub use origin::{Origin, Read, Reads};
pub use parts::{Changed, Flow, Frame, Local, Numbers, Run, Spot};
