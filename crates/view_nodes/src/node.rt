use crate::kind::{ModifierKind, NodeKind, ReaderKind};
use identity_path::{Inputs, Step};
use sv_items::{Boxed, Items};
use sv_value::Values;
use swift_core::{CodeId, UnitId};

/// An action block of a node.
#[derive(Drop)]
pub struct Handler {
    pub code: CodeId,
    /// Those locals that the body's run made and the block uses, in the order of their first use.
    pub locals: Inputs,
}

/// What a view is, besides what it holds.
#[derive(Drop)]
pub struct Node {
    pub kind: NodeKind,
    /// Values and places, as the kind tells.
    pub inputs: Inputs,
    /// Whole numbers as the kind tells, each given or left out.
    pub numbers: Items<Option<i64>>,
    pub blocks: Items<Handler>,
}

/// What a modifier is, besides what it holds.
#[derive(Drop)]
pub struct Modifier {
    pub kind: ModifierKind,
    /// Its number on the view expression, counted from the inside, from 0.
    pub number: u32,
    /// Values and places, as the kind tells.
    pub inputs: Inputs,
    /// Whole numbers as the kind tells, each given or left out.
    pub numbers: Items<Option<i64>>,
    pub blocks: Items<Handler>,
}

/// What a plain node is.
#[derive(Drop)]
pub enum Label {
    View(Node),
    Modifier(Modifier),
}

/// A use of a custom view.
#[derive(Drop)]
pub struct Custom {
    /// The code of its body.
    pub unit: UnitId,
    /// Its stored properties and bindings, by their places.
    pub inputs: Inputs,
    /// The initial values of its state slots, by their places.
    pub initials: Values,
}

/// A preference reader, which is a modifier too.
#[derive(Drop)]
pub struct Reader {
    pub kind: ReaderKind,
    /// Its number on the view expression, counted from the inside, from 0.
    pub number: u32,
    /// Its number among the decorations on the view expression, counted from the inside, from 0.
    pub decoration: u32,
    /// The preference key that it reads.
    pub key: u32,
    /// The code of its builder.
    pub unit: UnitId,
    /// The locals of the enclosing body that its closure uses, in the order of their first use.
    pub captured: Inputs,
}

/// A node of a description, with the steps by which its path goes on from that of the node that holds it.
#[derive(Drop)]
pub enum Element {
    /// A view that is built in, a branch, a `ForEach`, an item or a modifier, and what it holds.
    Plain {
        steps: Items<Step>,
        label: Label,
        parts: Items<Element>,
    },
    /// A custom view. The last of its steps names it.
    Custom {
        steps: Items<Step>,
        custom: Custom,
    },
    /// A preference reader and its content.
    Reader {
        steps: Items<Step>,
        reader: Reader,
        content: Boxed<Element>,
    },
}

/// The description of a body: its root views.
pub type Desc = Items<Element>;
