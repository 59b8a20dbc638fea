use crate::item::CoreItem;
use crate::stmt::CoreStmt;
use crate::term::Core;
use crate::ty::Ty;
use sv_items::Items;

/// What a local has: a value of a type, or a place whose value has the type.
#[derive(Drop)]
pub enum LocalType {
    Value(Ty),
    Place(Ty),
}

/// A piece of code.
///
/// Its locals are, in order: those that stand where the code is written (`outer` of them), its parameters, and those
/// that it makes itself. Of the first it uses those of `kept` alone.
#[derive(Drop)]
pub struct Code {
    /// How many locals stand where the code is written.
    pub outer: usize,
    /// The places of the locals among these that the code uses, each once, in the order of their first use.
    pub kept: Items<usize>,
    /// What those of `kept` have, and then the parameters, in order.
    pub types: Items<LocalType>,
    pub parameters: usize,
    pub form: CodeForm,
}

/// What a piece of code is.
#[derive(Drop)]
pub enum CodeForm {
    /// An initial value, a static or a default.
    Value(Core),
    /// A computed property, a function or an action block.
    Statements(Items<CoreStmt>),
    /// A body, a property or function that gives views, or the closure of a preference reader.
    Builder(Items<CoreItem>),
}

/// A checked member.
#[derive(Drop)]
pub struct CoreMember {
    /// None for a member that has no code: a stored property without an initial value.
    pub code: Option<Code>,
    /// Its action blocks and the builders of its preference readers, each after those within it.
    pub blocks: Items<Code>,
}
