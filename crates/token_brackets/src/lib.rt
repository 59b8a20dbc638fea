//! Questions about the brackets in a list of tokens: whether each has its partner, how deep they stand, and
//! where a piece of a file ends.
#![tactic(auto)]

mod brackets;
mod nesting;
mod partners;
mod pieces;
mod prefix;
#[cfg(test)]
mod tests;

pub use brackets::{Bracket, Shape, bracket_of};
pub use nesting::{MAX_DEPTH, too_nested};
pub use partners::unbalanced;
pub use pieces::{first_piece, one_cut};
pub use prefix::balanced_len;
