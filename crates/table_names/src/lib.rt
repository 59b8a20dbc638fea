//! What is declared in a source file stands in its table where the table says: names, codes and key 0.
#![tactic(auto)]

mod laws;

pub use laws::{
    codes_stand, declarations_are_found, defaults_stand, enabled_is_a_bool, keys_are_found,
    keys_are_written, members_are_counted, members_are_found, members_are_written,
    written_is_a_table,
};
