//! What the evaluator looks up, reads and writes: sources, locals, and the places that targets lead to.
#![tactic(auto)]

mod look;
mod setting;
mod spots;

pub use look::{field, find, local_at, look_up, plain_local, plain_of, slot_place, value_of};
pub use setting::Setting;
pub use spots::{light, read_spot, spot_of, write_spot};
