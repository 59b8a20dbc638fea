//! The tokens of a source file, found by longest match.
#![tactic(auto)]

mod brackets;
mod chars;
mod fault;
mod item;
mod laws;
mod lexing;
mod names;
mod numbers;
mod place;
mod signs;
#[cfg(test)]
mod tests;
mod text;
mod token;
mod word;

pub use fault::LexFault;
pub use laws::{count_of_turns, longest_word};
pub use lexing::lex;
pub use token::{Gap, Token, TokenKind};
pub use word::Word;
