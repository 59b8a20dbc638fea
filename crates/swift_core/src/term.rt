use crate::ids::{CodeId, PlaceRule};
use sv_items::{Boxed, Items};
use sv_value::{Text, Value};
use value_calls::{Operator, Property};

/// What is computed of one operand.
#[derive(Clone, Copy, Debug, PartialEq, Eq)]
pub enum Unary {
    /// A prefix operator, `abs` or `String(x)`.
    Operate(value_calls::Unary),
    /// `x!`
    Force,
    /// `x.f`, the field of a data struct at this place.
    Field(u32),
    /// A built-in property of a string or a list.
    Look(Property),
}

/// What is computed of two operands.
#[derive(Clone, Copy, Debug, PartialEq, Eq)]
pub enum Binary {
    /// An operator that runs both operands.
    Operate(Operator),
    /// `&&`, which runs the right operand where the left one is true.
    And,
    /// `||`, which runs the right operand where the left one is false.
    Or,
    /// `a ?? b`, where b has the type inside the optional a. The value inside a is the answer.
    Coalesce,
    /// `a ?? b`, where b is an optional too. The optional a is the answer.
    CoalesceOptional,
    /// `l[i]`
    Element,
    /// `l.contains(x)`
    Contains,
    /// `l.firstIndex(of: x)`
    FirstIndex,
    /// `String(repeating: s, count: n)`
    Repeat,
}

/// What a name or `self` stands for.
#[derive(Clone, Copy, Debug, PartialEq, Eq)]
pub enum Lookup {
    /// The value of the local at this place among the locals of the code.
    Local(usize),
    /// The value at the place that the local at this place holds.
    BoundLocal(usize),
    /// The value of the view's own stored property, by its place among the inputs.
    Input(u32),
    /// The value at the place that the view's own binding holds, by its place among the inputs.
    BoundInput(u32),
    /// The value of a state slot, as a whole.
    Slot(PlaceRule),
    /// The value of an environment key of the view.
    Environment(u32),
    /// `self` in a member of a data struct or an enum.
    Itself,
    /// The field at this place of `self` in a member of a data struct.
    OwnField(u32),
}

/// Where a place that is written or bound begins.
#[derive(Clone, Copy, Debug, PartialEq, Eq)]
pub enum Root {
    /// A local that can be written.
    Local(usize),
    /// The place that the local holds.
    BoundLocal(usize),
    /// The place that the view's own binding holds, by its place among the inputs.
    BoundInput(u32),
    Slot(PlaceRule),
    /// `self` in a `mutating` function.
    Itself,
}

/// A term that gives a value.
#[cycle(core)]
#[derive(Drop)]
pub enum Core {
    /// A literal, a case, `nil`, the list of all cases, or a length that is not limited.
    Literal(Value),
    Look(Lookup),
    /// A string with holes.
    Text(Items<Piece>),
    List(Items<Core>),
    /// The value as a filled optional. It is no form of its own.
    Promote(Boxed<Core>),
    Unary(Unary, Boxed<Core>),
    Binary(Binary, Boxed<Core>, Boxed<Core>),
    /// `condition ? first : second`
    Choose(Boxed<Core>, Boxed<Core>, Boxed<Core>),
    /// A data struct made by its initialiser: its declaration, and for each stored property what fills it, in order.
    Make(u32, Items<Filling>),
    /// The value of a static property, evaluated anew.
    Static(CodeId),
    Invoke(Boxed<Invocation>),
    /// A call that changes the value it stands on and has a value of its own.
    Change(Boxed<Change>),
}

/// A part of a string with holes.
#[cycle(core)]
#[derive(Drop)]
pub enum Piece {
    Text(Text),
    Hole(Core),
}

/// What fills a stored property, a state slot or a binding in an initialiser.
#[cycle(core)]
#[derive(Drop)]
pub enum Filling {
    /// The argument.
    Given(Core),
    /// The binding that is the argument.
    Place(Target),
    /// The initial value of the property.
    Initial(CodeId),
    /// nil, the initial value of a `var` of an optional type that is not written.
    Nil,
}

/// The use of a computed property or a function of the program.
#[cycle(core)]
#[derive(Drop)]
pub struct Invocation {
    pub code: CodeId,
    pub receiver: Receiver,
    pub arguments: Items<Core>,
}

/// What `self` is in the member that is used.
#[cycle(core)]
#[derive(Drop)]
pub enum Receiver {
    /// The `self` of the member that uses it.
    Same,
    Value(Core),
}

/// A place that is written or bound.
#[cycle(core)]
#[derive(Drop)]
pub struct Target {
    pub root: Root,
    pub hops: Items<CoreHop>,
}

/// A step into the value at a place.
#[cycle(core)]
#[derive(Drop)]
pub enum CoreHop {
    Field(u32),
    Index(Core),
}

/// A call that changes the value at a place.
#[cycle(core)]
#[derive(Drop)]
pub struct Change {
    pub target: Target,
    pub call: ChangeCall,
}

/// The calls that change the value they stand on.
#[cycle(core)]
#[derive(Drop)]
pub enum ChangeCall {
    /// `b.toggle()`
    Toggle,
    /// `l.append(x)`
    Append(Core),
    /// `l.append(contentsOf: m)`
    AppendAll(Core),
    /// `l.insert(x, at: i)`
    Insert(Core, Core),
    /// `l.remove(at: i)`
    Remove(Core),
    /// `l.removeFirst()`
    RemoveFirst,
    /// `l.removeLast()`
    RemoveLast,
    /// `l.removeAll()`
    RemoveAll,
    /// `l.swapAt(i, j)`
    SwapAt(Core, Core),
    /// A `mutating` function of the program.
    Mutate(CodeId, Items<Core>),
}
