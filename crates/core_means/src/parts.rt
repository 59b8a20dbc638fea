use crate::origin::Reads;
use environment::EnvMap;
use identity_path::{Input, Inputs, Path, Place};
use sv_items::Items;
use sv_value::{Hops, Value};

/// Where a piece of code runs.
#[derive(Drop)]
pub struct Frame {
    /// The path of the view whose state slots the code names.
    pub path: Path,
    /// The view's stored properties and bindings.
    pub inputs: Inputs,
    /// The locals that stand where the code is written and that it uses, in the order of `kept` of the code, and after them
    /// one for each of its parameters. For a preference reader these are the captured locals and then the preference.
    pub locals: Inputs,
    /// The environment of the view.
    pub env: EnvMap,
}

/// A local of the code that runs.
#[derive(Drop)]
pub enum Local {
    /// What it holds.
    Holds(Input),
    /// One that a reader captures, by its place among those. To use it is to look up a source.
    Captured(usize),
    /// The preference of a reader's content, which is looked up too.
    Preference,
    /// One that stands where the code is written, and that the code does not use.
    Absent,
}

/// How a statement ends.
#[derive(Drop)]
pub enum Flow {
    /// The next one follows.
    Next,
    /// `return`, with the value if there is one.
    Returned(Option<Value>),
    /// `break`
    Broke,
    /// `continue`
    Continued,
}

/// What is read or written, once the indexes of a target are there.
#[derive(Drop)]
pub enum Spot {
    /// A part of the local at this place.
    Local(usize, Hops),
    /// A part of `self`.
    Itself(Hops),
    /// A part of a state slot.
    Cell(Place),
}

/// A value after a call that changed it, and the value of the call, if it has one.
#[derive(Drop)]
pub struct Changed {
    pub value: Value,
    pub answer: Option<Value>,
}

/// The numbers of a range in order.
#[derive(Clone, Copy, Debug, PartialEq, Eq)]
pub struct Numbers {
    pub first: i64,
    /// How many there are.
    pub count: u128,
}

/// What changes while a piece of code runs.
#[derive(Drop)]
pub struct Run {
    /// The units of fuel that are left.
    pub fuel: u32,
    /// The locals, by their places.
    pub locals: Items<Local>,
    /// `self` in a member of a data struct or an enum.
    pub itself: Option<Value>,
    /// The counts of the nodes that were made so far, together.
    pub nodes: u32,
    /// What was looked up so far.
    pub reads: Reads,
}
