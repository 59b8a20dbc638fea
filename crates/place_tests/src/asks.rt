ghost use Rattle.std.specs.Prelude.{◌≡◌, ◌<◌, length, slice_get, List, Option, Some};
ghost use Rattle.place_tests.specs.Demands.{Demand};
ghost use Rattle.place_tests.specs.Asked.{asked};

use identity_path::Path;
use sv_value::Hop;
use swift_core::Ty;

/// What is asked of a place: that its value has a type.
#[derive(Clone, Copy)]
pub struct Asked<'a> {
    pub path: &'a Path,
    pub slot: u32,
    pub hops: &'a [Hop],
    pub ty: &'a Ty,
}

/// What is asked of places, by numbers of which some may ask nothing.
pub trait Asks {
    ghost demands: { Self → List (Option Demand) };

    /// How many numbers there are.
    fn count(&self) -> usize
        ensures value { result ≡ length (demands self.now) };

    /// What is asked at a number.
    fn demand(&self, at: usize) -> Option<Asked<'_>>
        requires within { at < length (demands self.now) }
        ensures value { Some (asked result) ≡ slice_get (demands self.now) at };
}
