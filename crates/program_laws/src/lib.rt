//! Every program that a file spells is a program: it is well typed, and each thing stands where its table says.
#![tactic(auto)]

mod laws;

pub use laws::every_program_is_one;
