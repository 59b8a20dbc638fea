//! The forms of expressions and the bodies of calls, each where others evaluate the forms inside it.
#![tactic(auto)]

mod calls;
mod changes;
mod inner;
mod terms;

pub use calls::{block, code_of, construction, entered, held, initial, invoked, run_code};
pub use changes::{changed, hop, hops};
pub use inner::{Inner, eval, exec, pay};
pub use terms::{
    choice, inside, list, one_operand, opened, tested, text, truth, two_operands, values,
};
