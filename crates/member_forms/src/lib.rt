//! Which members a declaration may have: what a member is by its form alone, before any type is known.
#![tactic(auto)]

mod marks;
mod role;
mod whole;

pub use marks::{Mark, environment_key, is_mark, is_private};
pub use role::{Role, Sort, label_of, role_of, starts};
pub use whole::{declaration_fits, is_named, member_name, sort_of};
