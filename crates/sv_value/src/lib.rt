//! The values of the language: how they are compared, weighed, copied and printed, and the hops that lead to their parts.
#![tactic(auto)]

mod copies;
mod hop;
mod names;
mod print;
#[cfg(test)]
mod tests;
mod text;
mod value;

pub use copies::CopyList;
pub use hop::{Hop, Hops, Missing};
pub use names::Names;
pub use print::push_separator;
pub use text::Text;
pub use value::{OptValue, Value, Values, all_same, copy_of_all, weight_of_all};
