use crate::guide::Guide;
use align_guides::{Axis, GuideKind};
use swift_core::{Alignment, Edges};

/// The kind of a node that is no modifier, no custom view and no preference reader, with what of it is no value.
///
/// Besides, a node has inputs and numbers as its kind tells, and a button has one block.
#[derive(Clone, Copy)]
pub enum NodeKind {
    /// The string.
    Text,
    /// The name.
    Image,
    /// None. The label is what it holds.
    Button,
    /// The place of the truth value, and the value that was there. The label is what it holds.
    Toggle,
    /// The number is the least length.
    Spacer,
    Rectangle,
    Empty,
    /// The number is the spacing. A stack along `Z` has none.
    Stack(Axis, Alignment),
    Group,
    /// An `if` chain or a `switch`. It holds the views of the branch that was chosen.
    Branches,
    /// It holds its items.
    ForEach,
    /// An item of a `ForEach`. The id.
    Item,
}

/// The kind of a modifier that is no preference reader, with what of it is no value. A modifier holds its content, and behind
/// it the views of its decoration, if it is one.
///
/// Besides, a modifier has inputs, numbers and blocks as its kind tells. A number that is left out is None.
#[derive(Drop)]
pub enum ModifierKind {
    /// The numbers are width and height.
    FixedFrame(Alignment),
    /// The numbers are minWidth, idealWidth, maxWidth, minHeight, idealHeight and maxHeight.
    FlexibleFrame(Alignment),
    /// The number is the amount.
    Padding(Edges),
    /// The truth values for horizontal and vertical.
    FixedSize,
    /// The numbers are x and y.
    Offset,
    /// The number is the priority.
    LayoutPriority,
    /// The number is that of the lines.
    LineLimit,
    AlignmentGuide(GuideKind, Guide),
    Overlay(Alignment),
    Background(Alignment),
    /// The id.
    Id,
    /// The value of this environment key.
    Environment(u32),
    /// The truth value.
    Disabled,
    /// The truth value.
    AllowsHitTesting,
    /// The value of this preference key.
    Preference(u32),
    /// One block.
    OnAppear,
    /// One block.
    OnDisappear,
    /// The value, and one block. It has no parameters or two, the old value and the new one.
    OnChange,
    /// One block with one parameter, the value of this preference key.
    OnPreferenceChange(u32),
    /// One block.
    OnTapGesture,
}

/// How a preference reader is laid out.
#[derive(Clone, Copy)]
pub enum ReaderKind {
    Overlay,
    Background,
}
