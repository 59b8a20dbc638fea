ghost use Rattle.std.specs.Prelude.{◌≡◌, ◌↔◌, ℕ, true, IfOk};
ghost use Rattle.call_reach.specs.Reaching.{Reaches, is_marked};

use crate::callers::{callers_at, callers_of, writers_of};
use crate::visits::visit;
use std::alloc::{AllocError, Global};
use sv_items::Items;

/// What one member does outside action blocks: whether it writes, and the numbers of those that it calls.
#[derive(Drop)]
pub struct Conduct {
    pub writes: bool,
    pub calls: Items<usize>,
}

/// For each member whether it reaches a write: it writes, or calls one that reaches a write. The calls are followed
/// backwards from those that write, each once.
#[tactic(auto, using(crate::proofs::Least::going_start, crate::proofs::Least::going_falls, crate::proofs::Least::going_end))]
pub fn reaching(alloc: Global, members: &[Conduct]) -> Result<Vec<bool>, AllocError>
    ensures marks { IfOk result (λ v. (i : ℕ) → (is_marked v.items i ≡ true) ↔ Reaches members.now i) }
{
    let callers = callers_of(alloc, members)?;
    let mut marks = vec![in alloc; false; members.len()]?;
    let mut work = Vec::new(alloc);
    visit(&mut marks, &mut work, &writers_of(alloc, members)?)?;
    while let Some(at) = work.pop() {
        visit(&mut marks, &mut work, callers_at(callers.as_slice(), at))?;
    }
    Ok(marks)
}
