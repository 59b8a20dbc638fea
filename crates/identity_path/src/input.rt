ghost use Rattle.std.specs.Prelude.{◌≡◌, IfOk, IsTrue, ◌↔◌};

use crate::place::Place;
use std::alloc::{AllocError, Global};
use sv_items::Items;
use sv_value::Value;

/// What a view or a block is given: a value, or a place that holds one.
#[derive(Drop)]
pub enum Input {
    Value(Value),
    Place(Place),
}

/// A list of inputs.
pub type Inputs = Items<Input>;

impl Input {
    /// An equal input.
    pub fn copy(&self, alloc: Global) -> Result<Input, AllocError>
        ensures { IfOk result (λ i. i ≡ self.now) }
    {
        match self {
            Input::Value(value) => Ok(Input::Value(value.copy(alloc)?)),
            Input::Place(place) => Ok(Input::Place(place.copy()?)),
        }
    }

    /// Whether both are the same value or the same place.
    pub fn same(&self, other: &Input) -> bool
        ensures { IsTrue result ↔ (self.now ≡ other.now) }
    {
        match (self, other) {
            (Input::Value(a), Input::Value(b)) => a.same(b),
            (Input::Place(a), Input::Place(b)) => a.same(b),
            _ => false,
        }
    }
}

/// The copy of a list of inputs, in memory from its own allocator.
pub trait CopyInputs: Sized {
    /// An equal list.
    fn copy(&self) -> Result<Self, AllocError>
        ensures { IfOk result (λ list. list ≡ self.now) };
}

impl CopyInputs for Inputs {
    fn copy(&self) -> Result<Inputs, AllocError> {
        let alloc = self.allocator();
        let mut copy = Items::new(alloc);
        for input in self.as_slice() {
            let input = input.copy(alloc)?;
            copy.push(input)?;
        }
        Ok(copy)
    }
}
