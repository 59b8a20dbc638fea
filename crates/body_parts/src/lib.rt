//! The lower half of the evaluation of bodies: bindings, the content of builders, the handlers of action blocks, `ForEach`, and
//! uses of custom views.
#![tactic(auto)]

mod binding;
mod builder;
mod construct;
mod each;
mod handlers;

pub use binding::{Bound, bound_to, place_to};
pub use builder::{Builder, ItemResult, content, views};
pub use construct::custom_view;
pub use each::for_each;
pub use handlers::handler;
