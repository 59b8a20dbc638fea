ghost use Rattle.std.specs.Prelude.{◌≡◌, IfOk};
ghost use Rattle.std.specs.Borrow.{sem};

use std::alloc::{AllocError, Global};
use std::marker::Model;
use std::mem;

/// One value in a block of memory of its own, which contracts see as that value.
#[derive(Debug, Drop)]
pub struct Boxed<T> {
    inner: Box<T>,
}

impl<T> Model for Boxed<T> {
    ghost Value = { T };

    ghost coded = { T.code };

    ghost view = { λ boxed. boxed.inner.value };
}

impl<T> Boxed<T> {
    pub fn get(&self) -> &T
        ensures { result.now ≡ self.now }
    {
        &self.inner
    }

    /// The value, out of its block.
    pub fn into_inner(self) -> T
        ensures { result ≡ self }
    {
        let Boxed { inner } = self;
        Box::into_inner(inner)
    }

    /// Puts `value` in the block, and gives the value that stood there.
    pub fn replace(&mut self, value: T) -> T
        ensures was { result ≡ self.old }
        ensures put { self.new ≡ value }
    {
        mem::replace(&mut *self.inner, value)
    }
}

impl<T> Boxed<T> {
    ghost use Rattle.sv_items.specs.Lending.{LendsInner};

    /// The value, to write. What stands behind the reference at last is what the block holds.
    pub fn get_mut(&mut self) -> &mut T
        ensures* writes_back { sem 𝓛 (LendsInner T.row self.entry result) }
        ensures value { result.now ≡ self.old }
    {
        &mut *self.inner
    }
}

impl<T: Drop> Boxed<T> {
    pub fn new(alloc: Global, value: T) -> Result<Boxed<T>, AllocError>
        ensures { IfOk result (λ boxed. boxed ≡ value) }
    {
        Ok(Boxed {
            inner: Box::new(alloc, value)?,
        })
    }
}
