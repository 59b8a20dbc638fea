//! View expressions without their modifiers.
#![tactic(auto)]

mod views;

pub use views::{items_of, number, one, view_form};
