//! Which locals the items of a builder alter, and what the builder of a preference reader may change and name.
#![tactic(auto)]

mod items;
mod keeps;
mod lists;
mod terms;

pub use keeps::reader_keeps;
