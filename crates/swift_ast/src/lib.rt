//! The syntax tree of a source file.
//!
//! Each type has one variant for each alternative of the grammar, and one field for each part of it. Chains are flat
//! lists (operators of one rule, postfix parts, prefix operators, the `?` of a type, `else`), so a tree nests through
//! brackets and ternaries alone. Brackets round an expression or a type leave no node of their own.
#![tactic(auto)]

mod piece;
mod span;
mod tree;
mod type_name;

pub use piece::{
    Access, Attribute, CaseName, Entry, EnumItem, EnumPiece, Member, MemberForm, Modifier, Param,
    ParamForm, Piece, PieceForm, ResultName, Source, StructBody, StructPiece,
};
pub use span::Span;
pub use tree::{
    Arg, ArgValue, Arm, AssignSign, BinarySign, Binder, Closure, ClosureParam, Condition, Expr,
    ExprForm, LabelledClosure, Link, Part, Pattern, PrefixSign, Selector, Stmt, StmtForm,
    StringPart, SwitchCase, SwitchLabel, Tail,
};
pub use type_name::TypeName;
