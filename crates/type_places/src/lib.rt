//! The typing of the places that are written and bound, and of what fills the properties of an initialiser.
#![tactic(auto)]

mod initialisers;
mod target_places;

pub use initialisers::{fillings, fillings_of};
pub use target_places::{binding, target};
