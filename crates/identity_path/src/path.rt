ghost use Rattle.std.specs.Prelude.{◌≡◌, [], ◌∷◌, ◌++◌, IfOk, IsTrue, ◌↔◌};

use crate::step::Step;
use smallvec::SmallVec;
use std::alloc::{AllocError, Global};
use std::marker::Model;

/// The identity of a node: the steps that lead to it from the root. Contracts see the list of the steps.
#[derive(Drop)]
pub struct Path {
    steps: SmallVec<Step, 4>,
}

impl Model for Path {
    ghost use Rattle.std.specs.Prelude.{List};
    ghost use Rattle.identity_path.specs.declared.step.Step.{Step};
    ghost use Rattle.identity_path.specs.contracts.step.Step as one;
    ghost use Rattle.std.specs.Coded.{coded_list};

    ghost Value = { List Step };

    ghost coded = { coded_list one.the_row.coded };

    ghost view = { λ p. p.steps.items };
}

impl Path {
    /// The empty path.
    pub fn root(alloc: Global) -> Path
        ensures { result ≡ [] }
    {
        Path {
            steps: SmallVec::new(alloc),
        }
    }

    /// The steps, from the root on.
    pub fn as_slice(&self) -> &[Step]
        ensures { result.now ≡ self.now }
    {
        self.steps.as_slice()
    }

    /// An equal path.
    pub fn copy(&self) -> Result<Path, AllocError>
        ensures { IfOk result (λ p. p ≡ self.now) }
    {
        let alloc = *self.steps.allocator();
        let mut steps = SmallVec::new(alloc);
        for step in self.steps.as_slice() {
            let step = step.copy(alloc)?;
            steps.push(step)?;
        }
        Ok(Path { steps })
    }

    /// The path with one step more at its end.
    pub fn with(&self, step: Step) -> Result<Path, AllocError>
        ensures { IfOk result (λ p. p ≡ self.now ++ step ∷ []) }
    {
        let mut path = self.copy()?;
        path.steps.push(step)?;
        Ok(path)
    }

    /// Whether both have the same steps. Paths of different length are told apart without a look at their steps.
    pub fn same(&self, other: &Path) -> bool
        ensures { IsTrue result ↔ (self.now ≡ other.now) }
    {
        are_same(self.as_slice(), other.as_slice())
    }
}

fn are_same(left: &[Step], right: &[Step]) -> bool
    ensures { IsTrue result ↔ (left.now ≡ right.now) }
{
    if left.len() != right.len() {
        return false;
    }
    for i in 0..left.len() {
        if !left[i].same(&right[i]) {
            return false;
        }
    }
    true
}
