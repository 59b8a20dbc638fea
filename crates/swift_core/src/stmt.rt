use crate::term::{Change, Core, Invocation, Target};
use sv_items::Items;
use sv_value::Value;
use value_calls::Operator;

/// A statement.
#[cycle(stmt)]
#[derive(Drop)]
pub enum CoreStmt {
    /// `let` or `var`: the value is the next local.
    Local(Core),
    Assign(Target, Core),
    /// `target += value` and the like.
    Update(Operator, Target, Core),
    /// The first arm and one for each `else if`, and the statements of a last `else`, if there is one.
    If(Items<StmtArm>, Option<Items<CoreStmt>>),
    Switch(Core, Items<StmtCase>),
    /// The value of each turn is the next local within the statements.
    For(Over, Items<CoreStmt>),
    While(Items<Condition>, Items<CoreStmt>),
    Return(Option<Core>),
    Break,
    Continue,
    /// A call of a function without a result.
    Invoke(Invocation),
    /// A call that changes the value it stands on. Its own value, if it has one, is dropped.
    Change(Change),
}

/// The conditions of an `if`, and its statements.
#[cycle(stmt)]
#[derive(Drop)]
pub struct StmtArm {
    pub conditions: Items<Condition>,
    pub body: Items<CoreStmt>,
}

/// A case of a `switch`: its patterns, or none for `default`, and its statements.
#[cycle(stmt)]
#[derive(Drop)]
pub struct StmtCase {
    pub patterns: Option<Items<Value>>,
    pub body: Items<CoreStmt>,
}

/// A condition.
#[derive(Drop)]
pub enum Condition {
    /// A value that is true.
    Test(Core),
    /// An optional that is filled: its value is the next local within the statements.
    Bind(Core),
}

/// What a loop goes over.
#[derive(Drop)]
pub enum Over {
    /// `a..<b`
    UpTo(Core, Core),
    /// `a...b`
    Through(Core, Core),
    /// `l.indices`
    Indices(Core),
    List(Core),
}
