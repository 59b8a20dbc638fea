//! What the run of a body makes of values, places and views that are there already: nodes as they are made and counted, the steps
//! that they stand under, what blocks and readers keep of the locals, what fills a custom view, and the ids of the items of a
//! `ForEach`. Nothing here evaluates a term.
#![tactic(auto)]

mod fills;
mod ids;
mod keeping;
mod nodes;
mod steps;

pub use fills::custom_of;
pub use ids::Ids;
pub use keeping::{Block, block_at, captured, own_locals};
pub use nodes::{custom, holding, modifier, plain, reader, showing, text, view};
pub use steps::{all_led, led, narrow, push_child};
