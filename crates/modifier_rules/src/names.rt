/// A modifier whose arguments are lengths, numbers or truth values.
#[derive(Clone, Copy, Debug, PartialEq, Eq)]
pub enum Plain {
    FixedFrame,
    FlexibleFrame,
    Padding,
    FixedSize,
    Offset,
    LayoutPriority,
    LineLimit,
    Disabled,
    AllowsHitTesting,
}

/// A modifier.
#[derive(Clone, Copy, Debug, PartialEq, Eq)]
pub enum Modifier {
    Plain(Plain),
    Id,
    Environment,
    Preference,
    AlignmentGuide,
    /// `.bold()`, which makes no node.
    Bold,
    /// A modifier with one name, which makes no node.
    Style,
    Overlay,
    Background,
    OverlayReader,
    BackgroundReader,
    OnAppear,
    OnDisappear,
    OnChange,
    OnPreferenceChange,
    OnTapGesture,
}

/// An argument of a view or a modifier: its label, and what is expected of it.
#[derive(Clone, Copy, Debug, PartialEq, Eq)]
pub enum Slot {
    Width,
    Height,
    MinWidth,
    IdealWidth,
    MaxWidth,
    MinHeight,
    IdealHeight,
    MaxHeight,
    X,
    Y,
    Spacing,
    MinLength,
    Horizontal,
    Vertical,
    /// A length without a label.
    Amount,
    /// An Int without a label.
    Number,
    /// A truth value without a label.
    Truth,
}
