use swift_core::{Change, Core, Invocation, Receiver, Target, Ty};

/// An expression that is a statement and leaves no value.
#[derive(Drop)]
pub enum Effect {
    /// A call that changes the value it stands on. Its own value, if it has one, is dropped.
    Change(Change),
    /// A call of a function without a result.
    Invoke(Invocation),
}

/// A built-in name.
#[derive(Clone, Copy, Debug, PartialEq, Eq)]
pub enum BuiltIn {
    /// `Int`, before `max` and `min`
    Int,
    /// `String`, before its arguments
    Text,
    /// `abs`
    Absolute,
    /// `min`
    Min,
    /// `max`
    Max,
}

/// A built-in function of a list or a truth value, by its name.
#[derive(Clone, Copy, Debug, PartialEq, Eq)]
pub enum Method {
    /// `contains`
    Contains,
    /// `firstIndex`
    FirstIndex,
    /// `append`
    Append,
    /// `insert`
    Insert,
    /// `remove`
    Remove,
    /// `removeFirst`
    RemoveFirst,
    /// `removeLast`
    RemoveLast,
    /// `removeAll`
    RemoveAll,
    /// `swapAt`
    SwapAt,
}

/// What an operand with some postfix parts is.
#[derive(Drop)]
pub enum Chained {
    /// A value and its type.
    Value(Core, Ty),
    /// A place that can be written, and the type of the value there.
    Place(Target, Ty),
    /// `self`, before a member's name.
    Itself,
    /// The name of a declaration, by its place.
    Named(u32),
    /// A built-in name.
    BuiltIn(BuiltIn),
    /// A function without parameters that is itself a parameter, by its place among the locals, and the type of its result.
    Next(usize, Ty),
    /// A function of the program before its arguments: what `self` is in it, its declaration and its place among the members.
    Function(Receiver, u32, u32),
    /// A `mutating` function before its arguments, and the place that it changes.
    Mutating(Target, u32, u32),
    /// A built-in function of a list before its arguments, and the type of the elements.
    Asks(Core, Ty, Method),
    /// A built-in function that changes the list at a place, before its arguments, and the type of the elements.
    Changes(Target, Ty, Method),
    /// `toggle` of the truth value at a place, before its arguments.
    Toggles(Target),
    /// `l.indices`, which is no value.
    Indices(Core),
    /// A call that leaves no value.
    Effect(Effect),
}
