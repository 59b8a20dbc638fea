//! The operators and built-in calls of the language on values alone, each with its traps.
#![tactic(auto)]

mod calls;
mod changes;
mod integers;
mod laws;
mod made;
mod operators;
#[cfg(test)]
mod tests;
mod texts;
mod traps;

pub use calls::{Bounds, Property, contains, element, first_index, force, look, range};
pub use changes::{
    Removed, append, insert, remove, remove_all, remove_first, remove_last, swap_at, toggle,
};
pub use laws::{makes_light, operates_light, removes_inserted};
pub use made::{MAX_WEIGHT, list_of, promote, struct_of, text_of};
pub use operators::{Arithmetic, Comparison, Operator, Unary, is_same, operate, operate_one};
pub use texts::{interpolate, repeat_text};
pub use traps::{Stop, TrapKind};
