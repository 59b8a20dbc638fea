//! Expressions and statements: their grammar as languages over tokens (`specs/Grammar.antt`), and a parser by recursive
//! descent that reads exactly these languages.
#![tactic(auto)]

mod ahead;
mod expressions;
mod laws;
mod read;
mod statements;

pub use laws::{one_expr, one_list_of_stmts, one_string};
pub use read::{expr, stmts, string};
