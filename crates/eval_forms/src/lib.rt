//! Statements, and the choice of the form that an expression or a statement is.
#![tactic(auto)]

mod forms;
mod loops;
mod ranges;
mod statements;

pub use forms::{exec_form, value_form};
pub use loops::parts;
pub use ranges::{counted, span};
pub use statements::{conditions, cut, matches, push};
