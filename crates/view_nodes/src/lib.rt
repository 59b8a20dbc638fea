//! What the run of a body gives: a description, made of the nodes that a tree of views is made of too.
//!
//! There is one kind of node for all views that are built in, for `if`, `switch` and `ForEach`, and for modifiers. It has a
//! kind, inputs, whole numbers and blocks, and it holds further nodes. Each node has the steps by which its path goes on from
//! that of the node that holds it, so a walk has three cases, whatever the number of kinds: a plain node, a custom view and a
//! preference reader.
#![tactic(auto)]

mod copies;
mod counts;
mod guide;
mod kind;
mod node;

pub use copies::copy_steps;
pub use guide::Guide;
pub use kind::{ModifierKind, NodeKind, ReaderKind};
pub use node::{Custom, Desc, Element, Handler, Label, Modifier, Node, Reader};
