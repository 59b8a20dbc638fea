use align_guides::Axis;

/// A built-in view.
#[derive(Clone, Copy, Debug, PartialEq, Eq)]
pub enum ViewName {
    Text,
    Image,
    Button,
    Toggle,
    Spacer,
    Rectangle,
    Empty,
    Stack(Axis),
    Group,
    ForEach,
}
