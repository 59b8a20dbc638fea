use crate::span::Span;
use crate::tree::{Binder, Expr, Stmt, StringPart};
use crate::type_name::TypeName;
use sv_items::Items;
use swift_lex::Word;

/// A source file: its pieces in order.
#[derive(Drop)]
pub struct Source {
    pub span: Span,
    pub pieces: Items<Piece>,
}

/// A piece of a source file and where it stands.
#[derive(Drop)]
pub struct Piece {
    pub span: Span,
    pub form: PieceForm,
}

/// The forms of a piece.
#[derive(Drop)]
pub enum PieceForm {
    /// `import` and a name.
    Import(Word),
    Struct(StructPiece),
    Enum(EnumPiece),
    /// `extension EnvironmentValues` and its entries.
    Environment(Items<Entry>),
    /// `#Preview` with the string in brackets, if it has one. Its tokens in braces are left aside.
    Preview(Option<Items<StringPart>>),
}

/// `private`, `fileprivate`, `internal` or `public`.
#[derive(Clone, Copy, Debug, PartialEq, Eq)]
pub enum Access {
    Private,
    FilePrivate,
    Internal,
    Public,
}

/// A struct.
#[derive(Drop)]
pub struct StructPiece {
    /// Whether `@main` stands before it.
    pub is_main: bool,
    pub access: Option<Access>,
    pub name: Word,
    /// The names after the colon.
    pub names: Items<Word>,
    pub body: StructBody,
}

/// What stands in the braces of a struct.
#[derive(Drop)]
pub enum StructBody {
    Members(Items<Member>),
    /// The names after the colon have `PreviewProvider`, and the tokens in braces are left aside.
    LeftAside,
}

/// An enum.
#[derive(Drop)]
pub struct EnumPiece {
    pub access: Option<Access>,
    pub name: Word,
    /// The names after the colon.
    pub names: Items<Word>,
    pub items: Items<EnumItem>,
}

/// A line of an enum.
#[derive(Drop)]
pub enum EnumItem {
    /// `case` and its names.
    Cases(Items<CaseName>),
    Member(Member),
}

/// A case of an enum and where its name stands.
#[derive(Drop)]
pub struct CaseName {
    pub span: Span,
    pub name: Word,
}

/// `@Entry var name: type = value`, and where it stands.
#[derive(Drop)]
pub struct Entry {
    pub span: Span,
    pub name: Word,
    pub declared: Option<TypeName>,
    pub value: Expr,
}

/// A member and where it stands.
#[derive(Drop)]
pub struct Member {
    pub span: Span,
    /// In the order in which they stand.
    pub modifiers: Items<Modifier>,
    pub form: MemberForm,
}

/// The forms of a member.
#[derive(Drop)]
pub enum MemberForm {
    /// `let` or `var`, the name, its type and its initial value, as far as they are written.
    Stored(Binder, Word, Option<TypeName>, Option<Expr>),
    /// `var name: result { .. }`
    Computed(Word, ResultName, Items<Stmt>),
    /// `func name(params) -> result { .. }`
    Function(Word, Items<Param>, Option<ResultName>, Items<Stmt>),
}

/// A modifier or an attribute of a member.
#[derive(Drop)]
pub enum Modifier {
    Access(Access),
    Static,
    Mutating,
    Attribute(Attribute),
}

/// An attribute.
#[derive(Drop)]
pub struct Attribute {
    /// Its name with the `@`, as `@State`.
    pub name: Word,
    /// The name in `@Environment(\.name)`.
    pub argument: Option<Word>,
}

/// The type of a computed property or of a function's result.
#[derive(Drop)]
pub enum ResultName {
    Plain(TypeName),
    /// `some` and a name.
    Opaque(Word),
}

/// A parameter of a function.
#[derive(Drop)]
pub struct Param {
    /// The first name of two.
    pub label: Option<Word>,
    pub name: Word,
    pub form: ParamForm,
}

/// The type of a parameter.
#[derive(Drop)]
pub enum ParamForm {
    Plain(TypeName),
    /// `inout` and a type.
    Inout(TypeName),
    /// `() ->` and a type.
    Function(TypeName),
}
