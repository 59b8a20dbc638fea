//! The typing rules of the modifiers whose arguments are values, and of the parts that modifiers and views share: the
//! rules, the searches, and that they agree.
#![tactic(auto)]

mod laws;
mod names;

pub use laws::{one_value_call, value_calls_are_found};
pub use names::{Modifier, Plain, Slot};
