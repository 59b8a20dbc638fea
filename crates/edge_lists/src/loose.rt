//! A block on its own: a box as its pointer, so that safe code can hand it over.
ghost use Rattle.std.specs.Prelude.{◌≡◌};
ghost use Rattle.std.specs.Box.Ownership.{box_owns};

use std::alloc::Allocator;
use std::boxed::Box;
use std::marker::Model;

/// The value's block at `at`, with the right to free it. It is let go only as a box or into a heap.
pub struct Loose<T, A: Allocator> {
    pub(crate) at: *mut T,
    pub(crate) alloc: A,
    pub(crate) ghost value: { T },
}

impl<T, A: Allocator> Model for Loose<T, A> {
    ghost also_owns = { λ l. box_owns (A.dealloc_token l.alloc) T.row l.at l.value };
}

impl<T: Drop, A: Allocator> Loose<T, A> {
    /// The box's block.
    pub(crate) fn of(block: Box<T, A>) -> Loose<T, A>
        ensures { result.value ≡ block.value }
    {
        let (at, alloc) = Box::into_raw_with_allocator(block);
        Loose { at, alloc }
    }

    /// The block as a box again.
    pub(crate) fn into_box(self) -> Box<T, A>
        ensures { result.value ≡ self.value }
    {
        let Loose { at, alloc } = self;
        unsafe { Box::from_raw(alloc, at) }
    }
}
