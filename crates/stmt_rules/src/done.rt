use sv_items::Items;
use swift_core::{CoreStmt, StmtArm};
use type_base::Local;

/// Where `break` and `continue` may stand.
#[derive(Clone, Copy, Debug, PartialEq, Eq)]
pub enum Exits {
    /// Neither: there is no loop and no `switch` around.
    Neither,
    /// `break`, which leaves a `switch`.
    Break,
    /// Both: a loop is around.
    Both,
}

/// What a statement becomes.
#[derive(Drop)]
pub struct Done {
    pub core: CoreStmt,
    /// The local that it adds.
    pub declared: Option<Local>,
    /// Whether it returns on every path.
    pub ends: bool,
    /// Whether it holds a `break` of the loop or the `switch` around it.
    pub breaks: bool,
}

/// What the statements between two braces become.
#[derive(Drop)]
pub struct Body {
    pub core: Items<CoreStmt>,
    /// Whether they return on every path.
    pub ends: bool,
    /// Whether they hold a `break` of the loop or the `switch` around them.
    pub breaks: bool,
}

/// What the arms of an `if` become.
#[derive(Drop)]
pub struct Arms {
    pub arms: Items<StmtArm>,
    /// Whether each returns on every path.
    pub ends: bool,
    /// Whether one holds a `break` of the loop or the `switch` around them.
    pub breaks: bool,
}

/// What the bodies of the cases of a `switch` become.
#[derive(Drop)]
pub struct Bodies {
    pub bodies: Items<Items<CoreStmt>>,
    /// Whether each returns on every path.
    pub ends: bool,
    /// Whether one holds a `break` of the `switch`.
    pub breaks: bool,
}
