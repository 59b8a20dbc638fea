// What the bytes of APP are: a program, or why they spell none.
ghost use Rattle.std.specs.Prelude.{◌≡◌, ◌≤◌, List, ℕ, length, IfSome, IfNone};
ghost use Rattle.verdict_rules.specs.Verdict.{Accepted, IsRefusal};
ghost use Rattle.app_top.specs.Ends.{limit};
ghost use Rattle.app_top.specs.Refusals.{NoProgramAs, RefusedAs};

use crate::end::{AppRefusal, End};
use std::alloc::Global;
use view_check::{Refusal, check};

/// Why the bytes spell no program, or None where they spell one.
#[tactic(auto, using(crate::proofs::Judging::why_refused))]
pub fn why_not(alloc: Global, bytes: &[u8]) -> Option<Refusal>
    requires short { length bytes.now ≤ limit }
    ensures refused { IfSome result (λ refusal. IsRefusal bytes.now refusal) }
    ensures accepted { IfNone result (Accepted bytes.now) }
{
    check(alloc, bytes).err()
}

/// The end of a run whose APP spells no program.
pub fn refused_as(refusal: Refusal) -> End
    ensures end { (app : List ℕ) → IsRefusal app refusal → NoProgramAs result app }
{
    let refusal = match refusal {
        Refusal::OutOfMemory => return End::OutOfMemory,
        Refusal::Lex { line, col } => AppRefusal::Lex { line, col },
        Refusal::Unbalanced { line } => AppRefusal::Unbalanced { line },
        Refusal::TooNested { line } => AppRefusal::TooNested { line },
        Refusal::NotADeclaration { line } => AppRefusal::NotADeclaration { line },
        Refusal::Twice { line } => AppRefusal::Twice { line },
        Refusal::Recursive { line } => AppRefusal::Recursive { line },
        Refusal::NotTyped { line } => AppRefusal::NotTyped { line },
        Refusal::WritesInBody { line } => AppRefusal::WritesInBody { line },
        Refusal::NoMain => AppRefusal::NoMain,
    };
    End::AppRefused { refusal }
}

/// Why a source is refused that is no counter: it spells no program, or another program.
#[tactic(auto, using(crate::proofs::Judging::as_source, crate::proofs::Judging::other_program))]
pub fn refused(alloc: Global, bytes: &[u8]) -> End
    requires short { length bytes.now ≤ limit }
    ensures end { RefusedAs result bytes.now }
{
    match why_not(alloc, bytes) {
        None => End::AppRefused {
            refusal: AppRefusal::NotThisApp,
        },
        Some(refusal) => refused_as(refusal),
    }
}
