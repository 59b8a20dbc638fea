//! A counter on a canvas: a text with a number, and a button that adds to it.
#![tactic(auto)]

mod engine;
mod form;
mod paint;

pub use engine::Engine;
pub use form::{Canvas, Event, Form, Halt, Settled, Size};

#[cfg(test)]
mod tests;
