ghost use Rattle.std.specs.Prelude.{◌≡◌, IfOk, IsTrue, ◌↔◌};

use crate::path::Path;
use std::alloc::AllocError;
use sv_value::{CopyList, Hop, Hops};

/// A part of the value in a slot of a path.
#[derive(Drop)]
pub struct Place {
    pub path: Path,
    pub slot: u32,
    pub hops: Hops,
}

/// Why a write was refused.
#[derive(Clone, Copy, Debug, PartialEq, Eq)]
pub enum WriteStop {
    /// The first index of the hops that is out of range.
    Missing { index: i64 },
    /// The weight that would pass its limit: that of the slot's value, or that of all cells.
    Heavy { total: u64 },
}

impl Place {
    /// An equal place.
    pub fn copy(&self) -> Result<Place, AllocError>
        ensures { IfOk result (λ p. p ≡ self.now) }
    {
        Ok(Place {
            path: self.path.copy()?,
            slot: self.slot,
            hops: self.hops.copy()?,
        })
    }

    /// Whether both are the same slot of the same path with the same hops.
    pub fn same(&self, other: &Place) -> bool
        ensures { IsTrue result ↔ (self.now ≡ other.now) }
    {
        self.slot == other.slot
            && same_hops(self.hops.as_slice(), other.hops.as_slice())
            && self.path.same(&other.path)
    }
}

fn same_hops(left: &[Hop], right: &[Hop]) -> bool
    ensures { IsTrue result ↔ (left.now ≡ right.now) }
{
    if left.len() != right.len() {
        return false;
    }
    for i in 0..left.len() {
        if left[i] != right[i] {
            return false;
        }
    }
    true
}
