//! The core of a checked program: its types, its table of declarations, and its terms.
//!
//! In a core term every name is found. A local is its place among the locals of its code, a state slot is named by a
//! place rule, a member of the program by its `CodeId`. Written types, brackets and modifiers without effect are gone.
#![tactic(auto)]

mod code;
mod code_index;
mod ids;
mod item;
mod mention;
mod program;
mod stmt;
mod table;
mod term;
mod ty;

pub use code::{Code, CodeForm, CoreMember, LocalType};
pub use ids::{BlockId, CodeId, PlaceRule, UnitId};
pub use item::{
    Alignment, CoreItem, Edges, ForEachOver, IdRule, ItemArm, ItemCase, Label, ModifierCall,
    ModifierKind, ViewCall, ViewKind,
};
pub use mention::Mention;
pub use program::Program;
pub use stmt::{Condition, CoreStmt, Over, StmtArm, StmtCase};
pub use table::{
    Argument, Declaration, EnvironmentKey, Initial, Kind, MemberPlace, ParamSignature,
    PreferenceKey, Signature, SignatureForm, Table,
};
pub use term::{
    Binary, Change, ChangeCall, Core, CoreHop, Filling, Invocation, Lookup, Piece, Receiver, Root,
    Target, Unary,
};
pub use ty::Ty;
