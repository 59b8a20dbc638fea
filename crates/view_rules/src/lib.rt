//! The typing rules of builders: view expressions, their modifiers, `let`, `if` and `switch`. The rules, the searches,
//! and that they agree.
#![tactic(auto)]

mod laws;
mod names;

pub use laws::{builders_are_found, one_builder, one_scene, scenes_are_found};
pub use names::ViewName;
