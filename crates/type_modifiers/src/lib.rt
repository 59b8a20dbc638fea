//! The typing of the modifiers whose arguments are values: lengths, guides, keys, and the table of labels.
#![tactic(auto)]

mod arguments;
mod guides;
mod lengths;
mod values;

pub use arguments::{bare_call, check_plain, check_slot};
pub use guides::check_guide;
pub use lengths::check_length;
pub use values::{check_value_call, free_declaration, preference_key, value_of};
