//! The evaluator: the value of a piece of code, and the run of an action block, over cells; and the tests whether code may be
//! run there.
#![tactic(auto)]

mod inside;
mod knot;
mod locals;
mod public;
mod vacant;

pub use code_tests::{body_fits, eval_fits};
pub use core_means::{Frame, Origin, Read, Reads};
pub use eval_places::Setting;
pub use inside::{block_to, conditions_to, entered_to, hop_to, initial_to, span_to, values_to};
pub use knot::{eval_to, exec_to};
pub use public::{FUEL, ROOM, eval, exec};
pub use vacant::Vacant;
pub use value_calls::{Stop, TrapKind};
