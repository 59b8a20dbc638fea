//! What chains of postfix parts mean: the data that the rules and the code speak of. The rules stand in specs.
#![tactic(auto)]

mod chained;

pub use chained::{BuiltIn, Chained, Effect, Method};
