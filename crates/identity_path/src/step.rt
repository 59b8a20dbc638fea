ghost use Rattle.std.specs.Prelude.{◌≡◌, IfOk, IsTrue, ◌↔◌};

use std::alloc::{AllocError, Global};
use sv_value::Value;

/// One step of a path.
#[derive(Drop)]
pub enum Step {
    /// The view with this number in a builder.
    Child(u32),
    /// The branch with this number of an `if` chain or a `switch`.
    Branch(u32),
    /// The item with this id, after so many earlier items with an equal id.
    Item(Value, u32),
    /// The content under an explicit id.
    Id(Value),
    /// A custom view, by its number.
    View(u32),
    /// The builder of the overlay that is the decoration with this number.
    Overlay(u32),
    /// The builder of the background that is the decoration with this number.
    Background(u32),
    /// The builder of the preference reader that is the decoration with this number.
    Pref(u32),
}

// A small vector asks for some value to fill its places with.
impl Default for Step {
    fn default() -> Step {
        Step::Child(0)
    }
}

impl Step {
    /// An equal step.
    pub fn copy(&self, alloc: Global) -> Result<Step, AllocError>
        ensures { IfOk result (λ s. s ≡ self.now) }
    {
        match self {
            Step::Child(i) => Ok(Step::Child(*i)),
            Step::Branch(i) => Ok(Step::Branch(*i)),
            Step::Item(id, again) => Ok(Step::Item(id.copy(alloc)?, *again)),
            Step::Id(id) => Ok(Step::Id(id.copy(alloc)?)),
            Step::View(i) => Ok(Step::View(*i)),
            Step::Overlay(i) => Ok(Step::Overlay(*i)),
            Step::Background(i) => Ok(Step::Background(*i)),
            Step::Pref(i) => Ok(Step::Pref(*i)),
        }
    }

    /// Whether both are the same step.
    pub fn same(&self, other: &Step) -> bool
        ensures { IsTrue result ↔ (self.now ≡ other.now) }
    {
        match (self, other) {
            (Step::Child(a), Step::Child(b)) => *a == *b,
            (Step::Branch(a), Step::Branch(b)) => *a == *b,
            (Step::Item(a, i), Step::Item(b, j)) => *i == *j && a.same(b),
            (Step::Id(a), Step::Id(b)) => a.same(b),
            (Step::View(a), Step::View(b)) => *a == *b,
            (Step::Overlay(a), Step::Overlay(b)) => *a == *b,
            (Step::Background(a), Step::Background(b)) => *a == *b,
            (Step::Pref(a), Step::Pref(b)) => *a == *b,
            _ => false,
        }
    }
}
