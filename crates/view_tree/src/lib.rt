//! What a tree of views is made of: descriptions whose custom views and preference readers have what their bodies gave.
#![tactic(auto)]

mod built;
mod copies;
mod copy_tree;
mod limits;
mod paths;
mod standing;
#[cfg(test)]
mod tests;
mod tree;

pub use built::{Built, BuiltApp, LastRun, ReaderRun};
pub use copies::describe_all;
pub use core_means::{Origin, Read, Reads};
pub use limits::{MAX_COUNT, MAX_DEPTH};
pub use paths::{Bodies, Live};
pub use standing::Name;
pub use tree::Tree;
pub use view_nodes::{
    Custom, Desc, Element, Guide, Handler, Label, Modifier, ModifierKind, Node, NodeKind, Reader,
    ReaderKind,
};
