//! Paths, which are the identities of nodes; places in the cells of a path; and what holds such cells.
#![tactic(auto)]

mod cells;
mod hashed;
mod input;
mod path;
mod place;
mod step;
#[cfg(test)]
mod tests;
mod text;

pub use cells::Cells;
pub use input::{CopyInputs, Input, Inputs};
pub use path::Path;
pub use place::{Place, WriteStop};
pub use step::Step;
pub use text::text_of;
