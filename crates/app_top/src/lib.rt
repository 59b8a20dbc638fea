//! What the program does, over files and streams that are handed in.
#![tactic(auto)]

mod checked;
mod end;
mod frames;
mod input;
mod source;
mod top;

pub use end::Outcome;
pub use top::run;

#[cfg(test)]
mod tests;
