use sv_items::Items;
use swift_core::{Table, Ty};
use swift_lex::Word;

/// What `self` is, and which members may be named, where code stands.
#[derive(Clone, Copy, Debug, PartialEq, Eq)]
pub enum Stance {
    /// The default of an environment key: there are no members.
    Outside,
    /// The initial value of a property, or a static property: it names no member and no `self`.
    Initial,
    /// A member of a view. `self` stands only before a member's name.
    View,
    /// A member of a data struct or an enum that changes nothing of `self`.
    Data,
    /// A `mutating` function of a data struct.
    Mutating,
    /// A static computed property or a static function of a preference key, where its static properties may be named.
    Key,
}

/// How a local may be used.
#[derive(Clone, Copy, Debug, PartialEq, Eq)]
pub enum LocalKind {
    /// It is read only.
    Let,
    /// It can be written.
    Var,
    /// It holds the place of an element: it can be written through, and bound.
    Place,
    /// A function without parameters: its call alone has a value, which is of the local's type.
    Next,
}

/// A local.
#[derive(Drop)]
pub struct Local {
    /// Its name; `_` names nothing.
    pub name: Word,
    pub ty: Ty,
    pub kind: LocalKind,
}

/// What stands around a part of the source.
#[derive(Drop)]
pub struct Scope<'t> {
    pub table: &'t Table,
    /// The declaration whose member the code belongs to, or None for the default of an environment key.
    pub owner: Option<u32>,
    pub stance: Stance,
    /// The locals, the outermost first.
    pub locals: Items<Local>,
    /// Where the locals of the innermost scope begin.
    pub floor: usize,
}
