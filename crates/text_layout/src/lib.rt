//! The lines of a text at a width: its paragraphs, their grapheme clusters, and where they are cut.
#![tactic(auto)]

mod breaking;
mod cutting;
mod limiting;
mod pieces;

pub use limiting::{image_line, lines_of};
pub use pieces::{Cluster, ClusterText, Line, Lines};

#[cfg(test)]
mod tests;
