//! The typing rules of expressions: what each form becomes, the searches that find it, and that they agree; and how the
//! expressions inside a form are checked.
#![tactic(auto)]

mod parts;

pub use parts::{check, wanted};
