//! The table with the types of all initial values: nothing changes but types, and it is what the typing of terms asks for.
#![tactic(auto)]

mod laws;

pub use laws::{
    completed_is_a_table, completed_tables_fit, declarations_are_named, forms_stand,
    members_start_as_written,
};
