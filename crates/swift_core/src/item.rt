use crate::ids::{BlockId, CodeId};
use crate::stmt::{Condition, Over};
use crate::term::{Core, Filling, Target};
use align_guides::{Axis, GuideExpr, GuideKind};
use sv_items::Items;
use sv_value::Value;
use value_calls::Property;

/// How views are aligned on each axis: `Leading`, `HorizontalCenter` or `Trailing`, and `Top`, `VerticalCenter` or
/// `Bottom`.
#[derive(Clone, Copy, Debug, PartialEq, Eq)]
pub struct Alignment {
    pub horizontal: GuideKind,
    pub vertical: GuideKind,
}

/// The edges that a padding is added at.
#[derive(Clone, Copy, Debug, PartialEq, Eq)]
pub struct Edges {
    pub top: bool,
    pub leading: bool,
    pub bottom: bool,
    pub trailing: bool,
}

/// An item of a builder.
#[cycle(item)]
#[derive(Drop)]
pub enum CoreItem {
    /// `let`: the value is the next local.
    Local(Core),
    /// The first arm and one for each `else if`, and the items of a last `else`, if there is one.
    If(Items<ItemArm>, Option<Items<CoreItem>>),
    Switch(Core, Items<ItemCase>),
    /// A view and its modifiers, the innermost first.
    View(ViewCall, Items<ModifierCall>),
}

/// The conditions of an `if` of a builder, and its items.
#[cycle(item)]
#[derive(Drop)]
pub struct ItemArm {
    pub conditions: Items<Condition>,
    pub body: Items<CoreItem>,
}

/// A case of a `switch` of a builder: its patterns, or none for `default`, and its items.
#[cycle(item)]
#[derive(Drop)]
pub struct ItemCase {
    pub patterns: Option<Items<Value>>,
    pub body: Items<CoreItem>,
}

/// A view expression without its modifiers.
#[cycle(item)]
#[derive(Drop)]
pub enum ViewCall {
    /// A text.
    Text(Core),
    /// A picture by its name.
    Image(Core),
    Button(BlockId, Label),
    /// The place of a truth value, and the label.
    Toggle(Target, Label),
    /// The least length, or 0 where none is given.
    Spacer(Option<Core>),
    Rectangle,
    Empty,
    /// The spacing is that of the axis where none is given. A stack along `Z` has none.
    Stack(Axis, Alignment, Option<Core>, Items<CoreItem>),
    Group(Items<CoreItem>),
    /// The item is the next local within the content: a value, or a place over places.
    ForEach(ForEachOver, Items<CoreItem>),
    /// A custom view by its declaration, and for each stored property, slot and binding what fills it, in order.
    Custom(u32, Items<Filling>),
    /// A property or function of the program that gives views.
    Builder(CodeId, Items<Core>),
}

/// The kind of a view expression, for those who only ask what it is.
#[derive(Clone, Copy, Debug, PartialEq, Eq)]
pub enum ViewKind {
    Text,
    Image,
    Button,
    Toggle,
    Spacer,
    Rectangle,
    Empty,
    Stack(Axis),
    Group,
    ForEach,
    Custom,
    Builder,
}

/// The label of a button or a toggle.
#[cycle(item)]
#[derive(Drop)]
pub enum Label {
    /// The label is one text.
    Text(Core),
    Content(Items<CoreItem>),
}

/// What a `ForEach` goes over.
#[derive(Drop)]
pub enum ForEachOver {
    /// A range or the indices of a list; the ids are the numbers.
    Numbers(Over),
    /// The elements of a list.
    Values(Core, IdRule),
    /// The places of the elements of the list at a place.
    Places(Target, IdRule),
}

/// The id of an element.
#[derive(Clone, Copy, Debug, PartialEq, Eq)]
pub enum IdRule {
    /// `\.self`
    Itself,
    /// The field at this place.
    Field(u32),
    /// A computed property.
    Computed(CodeId),
    /// A built-in property.
    Look(Property),
}

/// A modifier: its kind, its arguments in the order that the kind tells, each given or left out, and the views of its
/// closure.
#[cycle(item)]
#[derive(Drop)]
pub struct ModifierCall {
    pub kind: ModifierKind,
    pub arguments: Items<Option<Core>>,
    pub content: Items<CoreItem>,
}

/// The kinds of modifiers, with what of them is no value.
#[derive(Drop)]
pub enum ModifierKind {
    /// width, height
    FixedFrame(Alignment),
    /// minWidth, idealWidth, maxWidth, minHeight, idealHeight, maxHeight
    FlexibleFrame(Alignment),
    /// the amount, which is 1 where it is left out
    Padding(Edges),
    /// horizontal, vertical; both are true where they are left out
    FixedSize,
    /// x, y, which are 0 where they are left out
    Offset,
    /// the priority
    LayoutPriority,
    /// the number of lines
    LineLimit,
    /// no arguments
    AlignmentGuide(GuideKind, GuideExpr),
    /// no arguments; the decoration is the content
    Overlay(Alignment),
    /// no arguments; the decoration is the content
    Background(Alignment),
    /// the id
    Id,
    /// the value of this environment key
    Environment(u32),
    /// the truth value
    Disabled,
    /// the truth value
    AllowsHitTesting,
    /// the value of this preference key
    Preference(u32),
    /// no arguments; a reader of this preference key whose builder is the block
    OverlayReader(u32, BlockId),
    /// no arguments; a reader of this preference key whose builder is the block
    BackgroundReader(u32, BlockId),
    /// no arguments
    OnAppear(BlockId),
    /// no arguments
    OnDisappear(BlockId),
    /// the value; the block has no parameters or two, the old value and the new one
    OnChange(BlockId),
    /// no arguments; the block has one parameter, the value of this preference key
    OnPreferenceChange(u32, BlockId),
    /// no arguments
    OnTapGesture(BlockId),
}
