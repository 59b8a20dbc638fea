//! What the parsers of expressions and of members stand on: a cursor over the tokens, terminals with the rules on gaps,
//! grammars as languages made of a few words (`specs/Language.antt`), parsers on lists made of the same words
//! (`specs/Parser.antt`), and one law for each word, that its parser reads its language (`proofs/Laws.antt`).
#![tactic(auto)]

mod cursor;
mod stop;
#[cfg(test)]
mod tests;

pub use cursor::{Tokens, is_joined, is_on_new_line, is_reserved, is_sign, joined_next};
pub use stop::Stop;
