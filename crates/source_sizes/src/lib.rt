//! How much a file declares at most: each token spells one declaration, member, case or key at most, and each token has a byte.
#![tactic(auto)]

mod laws;

pub use laws::{declarations_are_few, tokens_are_few};
