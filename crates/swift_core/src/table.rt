use crate::ids::CodeId;
use crate::ty::Ty;
use name_map::NameMap;
use sv_items::Items;
use swift_ast::Binder;
use swift_lex::Word;

/// The declarations of a program, in text order, with the types of their members.
#[derive(Drop)]
pub struct Table {
    pub declarations: Items<Declaration>,
    /// Key 0 is `isEnabled`; the declared key number i in text order, from 0, is key i + 1.
    pub environment: Items<EnvironmentKey>,
    pub preferences: Items<PreferenceKey>,
    /// The members of the declarations and the environment keys of the program, all in text order. The code of number i
    /// has the `CodeId` i + 1.
    pub members: Items<MemberPlace>,
    /// The place of each declaration by its name.
    pub names: NameMap,
    /// The number of each environment key by its name.
    pub keys: NameMap,
}

/// A struct or an enum.
#[derive(Drop)]
pub struct Declaration {
    pub name: Word,
    pub kind: Kind,
    /// Whether `@main` stands before it.
    pub is_main: bool,
    pub members: Items<Signature>,
    /// The place of each member by its name.
    pub names: NameMap,
}

/// What a declaration is.
#[derive(Clone, Copy, Debug, PartialEq, Eq)]
pub enum Kind {
    /// A data struct, and whether it names `Identifiable`.
    Data(bool),
    /// An enum, whether it names `CaseIterable`, and the number of its cases.
    Enum(bool, u32),
    View,
    App,
    /// A preference key by its number.
    Key(u32),
}

/// A member of a declaration.
#[derive(Drop)]
pub struct Signature {
    pub name: Word,
    pub code: CodeId,
    pub form: SignatureForm,
}

/// What a member is. A property that has no type has None as its type.
#[derive(Drop)]
pub enum SignatureForm {
    /// A stored property, by its place among the fields of a data struct or the inputs of a view.
    Stored(u32, Binder, Option<Ty>, Argument),
    /// A state slot, by its place among the slots.
    State(u32, Option<Ty>, Argument),
    /// A binding, by its place among the inputs.
    Binding(u32, Option<Ty>),
    /// What is read of an environment key.
    Environment(u32),
    /// A static property.
    Static(Option<Ty>),
    /// A case by its place.
    Case(u32),
    /// A computed property of a type.
    Computed(Option<Ty>),
    /// A function: its parameters, its result if it has one, and whether it is `mutating`.
    Function(Items<ParamSignature>, Option<Ty>, bool),
    /// A property that gives views.
    BuilderProperty,
    /// A function that gives views.
    BuilderFunction(Items<ParamSignature>),
    /// `reduce` of a preference key.
    Reduce,
    /// A member of a form that does not fit its declaration, or with a written type that is none.
    Unfit,
}

/// Whether a property is an argument of the initialiser, and what fills it where no argument is given.
#[derive(Clone, Copy, Debug, PartialEq, Eq)]
pub enum Argument {
    /// It is always given.
    Required,
    /// It may be left out.
    Optional(Initial),
    /// It is no argument.
    Never(Initial),
}

/// The initial value of a property.
#[derive(Clone, Copy, Debug, PartialEq, Eq)]
pub enum Initial {
    /// The value that is written.
    Written,
    /// nil, for a `var` of an optional type.
    Nil,
}

/// A parameter of a function.
#[derive(Drop)]
pub struct ParamSignature {
    /// The label of the argument, or None where the argument has no label.
    pub label: Option<Word>,
    pub ty: Option<Ty>,
}

/// An environment key.
#[derive(Drop)]
pub struct EnvironmentKey {
    pub name: Word,
    pub ty: Option<Ty>,
    pub default: CodeId,
}

/// A preference key.
#[derive(Drop)]
pub struct PreferenceKey {
    /// Its declaration.
    pub declaration: u32,
    pub ty: Option<Ty>,
    pub default: CodeId,
    pub reduce: CodeId,
}

/// Where a member or an environment key stands.
#[derive(Clone, Copy, Debug, PartialEq, Eq)]
pub struct MemberPlace {
    /// The index of its first token.
    pub first: usize,
    /// Its declaration and its place among the members there, or None and the number of the environment key.
    pub declaration: Option<u32>,
    pub at: u32,
}
