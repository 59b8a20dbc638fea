ghost use Rattle.std.specs.Prelude.{◌≡◌, IfOk};

use crate::hop::Hops;
use crate::value::{Values, copy_of_all};
use std::alloc::AllocError;
use sv_items::Items;

/// A list that can be copied with all that its items hold, in memory from its own allocator.
pub trait CopyList: Sized {
    /// An equal list.
    fn copy(&self) -> Result<Self, AllocError>
        ensures { IfOk result (λ list. list ≡ self.now) };
}

impl CopyList for Values {
    fn copy(&self) -> Result<Values, AllocError> {
        copy_of_all(self)
    }
}

impl CopyList for Hops {
    fn copy(&self) -> Result<Hops, AllocError> {
        Items::from_slice(self.allocator(), self.as_slice())
    }
}
