//! What the checker stands on: scopes, looked up names, promotion, written types, and the laws by which a search and a
//! rule agree.
#![tactic(auto)]

mod depths;
mod fault;
mod inner;
mod local_types;
mod lookup;
mod scope;
mod scopes;
mod type_names;

pub use depths::{DEEPEST, optional, shallow};
pub use fault::Fault;
pub use inner::{Inner, fit};
pub use local_types::{types_at, types_from};
pub use lookup::{find_declaration, find_local, find_member, find_own, is_data, is_new, owner};
pub use scope::{Local, LocalKind, Scope, Stance};
pub use scopes::{Mark, declare, enter, leave, push_local};
pub use type_names::{type_of, written_within};
