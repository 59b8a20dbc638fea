ghost use Rattle.std.specs.Prelude.{◌≡◌, ◌↔◌, IsTrue, IfOk};
ghost use Rattle.core_means.specs.Sources.{same_origin};

use identity_path::{Input, Place};
use std::alloc::{AllocError, Global};
use sv_items::Items;
use swift_core::PlaceRule;

/// A source that a body looks up.
#[derive(Drop)]
pub enum Origin {
    /// The view's own stored property at this place among its inputs. Of a binding it is the place.
    Input(u32),
    /// A state slot as a whole.
    Slot(PlaceRule),
    /// The value at a place, which is got through a binding.
    Place(Place),
    /// The view's environment at this key.
    Environment(u32),
    /// A local of the enclosing body that the closure of a preference reader captures, by its place among those.
    Captured(usize),
    /// The preference of a reader's content.
    Preference,
}

/// What a body looked up, and what it found there.
#[derive(Drop)]
pub struct Read {
    pub origin: Origin,
    pub input: Input,
}

/// The sources that a body looked up, each once, in the order of the first look-up.
pub type Reads = Items<Read>;

fn same_rule(a: PlaceRule, b: PlaceRule) -> bool
    ensures { IsTrue result ↔ (a ≡ b) }
{
    match (a, b) {
        (PlaceRule::Own(i), PlaceRule::Own(j)) => i == j,
        (PlaceRule::Shared(i), PlaceRule::Shared(j)) => i == j,
        _ => false,
    }
}

impl Origin {
    fn is(&self, other: &Origin) -> bool
        ensures { IsTrue result ↔ (self.now ≡ other.now) }
    {
        match (self, other) {
            (Origin::Input(a), Origin::Input(b)) => *a == *b,
            (Origin::Slot(a), Origin::Slot(b)) => same_rule(*a, *b),
            (Origin::Place(a), Origin::Place(b)) => a.same(b),
            (Origin::Environment(a), Origin::Environment(b)) => *a == *b,
            (Origin::Captured(a), Origin::Captured(b)) => *a == *b,
            (Origin::Preference, Origin::Preference) => true,
            _ => false,
        }
    }

    /// Whether both are the same source.
    pub fn same(&self, other: &Origin) -> bool
        ensures value { result ≡ same_origin self.now other.now }
    {
        self.is(other)
    }

    /// An equal source.
    pub fn copy(&self) -> Result<Origin, AllocError>
        ensures value { IfOk result (λ origin. origin ≡ self.now) }
    {
        match self {
            Origin::Input(at) => Ok(Origin::Input(*at)),
            Origin::Slot(rule) => Ok(Origin::Slot(*rule)),
            Origin::Place(place) => Ok(Origin::Place(place.copy()?)),
            Origin::Environment(key) => Ok(Origin::Environment(*key)),
            Origin::Captured(at) => Ok(Origin::Captured(*at)),
            Origin::Preference => Ok(Origin::Preference),
        }
    }
}

impl Read {
    /// An equal read.
    pub fn copy(&self, alloc: Global) -> Result<Read, AllocError>
        ensures value { IfOk result (λ read. read ≡ self.now) }
    {
        Ok(Read {
            origin: self.origin.copy()?,
            input: self.input.copy(alloc)?,
        })
    }

    /// Whether both are the same source with the same value or place.
    pub fn same(&self, other: &Read) -> bool
        ensures value { IsTrue result ↔ (self.now ≡ other.now) }
    {
        self.origin.is(&other.origin) && self.input.same(&other.input)
    }
}
