//! The parts of a source file that are checked one by one, in text order.
#![tactic(auto)]

mod collect;
mod part_ref;

pub use collect::parts;
pub use part_ref::PartRef;
