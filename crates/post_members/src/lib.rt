//! What names, members and places are in a chain of postfix parts.
#![tactic(auto)]

mod built_ins;
mod members;
mod names;
mod places;
mod refusals;
mod self_members;

pub use built_ins::built_in_member;
pub use members::{place_member, type_member, value_member, var_field};
pub use names::{bound_root, name, own_member, root};
pub use places::{change, element, force, invoke, read, then_hop};
