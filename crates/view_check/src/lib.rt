//! Which source files are programs, and why another is none.
#![tactic(auto)]

ghost use Rattle.std.specs.Prelude.{◌≡◌, ◌≤◌, length, IfOk, IfErr};
ghost use Rattle.swift_core.specs.Programs.{IsProgram};
ghost use Rattle.verdict_rules.specs.declared.refusal.Refusal.TheVariants.{OutOfMemory};
ghost use Rattle.verdict_rules.specs.Verdict.{Agrees, Answer, IsVerdict};
ghost use Rattle.view_check.specs.Answers.{answer_of};

use file_verdict::verdict_of;
use program_laws::every_program_is_one;
use program_parts::find_writers;
use std::alloc::Global;
pub use swift_core::Program;
use verdict_rules::Program as Spelt;
pub use verdict_rules::Refusal;

/// The program of these declarations and members.
fn program_of(alloc: Global, spelt: Spelt) -> Result<Program, Refusal>
    requires program { IsProgram spelt.table spelt.members }
    ensures table { IfOk result (λ p. p.table ≡ spelt.table) }
    ensures members { IfOk result (λ p. p.members ≡ spelt.members) }
    ensures memory { IfErr result (λ why. why ≡ OutOfMemory) }
{
    let Spelt { table, members } = spelt;
    let writers = find_writers(alloc, &members)?;
    let program = Program::new(alloc, table, members, writers)?;
    Ok(program)
}

/// The program that the bytes spell, or why they spell none.
fn program_or_refusal(alloc: Global, bytes: &[u8]) -> Result<Program, Refusal>
    requires limit { length bytes.now ≤ 1048576 }
    ensures verdict { IsVerdict bytes.now (answer_of result) }
{
    every_program_is_one();
    match verdict_of(alloc, bytes) {
        Ok(spelt) => program_of(alloc, spelt),
        Err(refusal) => Err(refusal),
    }
}

/// The program that a source file in UTF-8 spells, well typed and with each thing where its table says, or why the file
/// spells none. There is one such answer, and it comes unless memory runs out.
#[tactic(auto, using(verdict_rules::specs::Unique::one_verdict))]
pub fn check(alloc: Global, bytes: &[u8]) -> Result<Program, Refusal>
    requires limit { length bytes.now ≤ 1048576 }
    ensures verdict { IsVerdict bytes.now (answer_of result) }
    ensures only { (other : Answer) → IsVerdict bytes.now other → Agrees (answer_of result) other }
{
    program_or_refusal(alloc, bytes)
}
