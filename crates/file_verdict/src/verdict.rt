//! The public call.
ghost use Rattle.std.specs.Prelude.{◌≤◌, length, Result};
ghost use Rattle.verdict_rules.specs.declared.program.Program as programs;
ghost use Rattle.verdict_rules.specs.declared.refusal.Refusal as refusals;
ghost use Rattle.verdict_rules.specs.Verdict.{Agrees, ByTokens, IsVerdict, Unless};

use crate::judging::judge;
use std::alloc::Global;
use swift_lex::{LexFault, Token, lex};
use swift_parse::{ParseFault, parse};
use verdict_rules::{Program, Refusal};

/// Asks what the first fault of the grammar is.
#[tactic(auto, using(crate::proofs::Steps::source_known, crate::proofs::Steps::unbalanced_known, crate::proofs::Steps::nested_known, crate::proofs::Steps::no_declaration_known))]
fn by_tokens(alloc: Global, tokens: Vec<Token>) -> Result<Program, Refusal>
    ensures answer { Unless result (ByTokens (Ok tokens.items)) }
{
    match parse(alloc, tokens) {
        Ok(source) => judge(alloc, &source),
        Err(ParseFault::Unbalanced { line }) => Err(Refusal::Unbalanced { line }),
        Err(ParseFault::TooNested { line }) => Err(Refusal::TooNested { line }),
        Err(ParseFault::NotADeclaration { line }) => Err(Refusal::NotADeclaration { line }),
        Err(ParseFault::OutOfMemory) => Err(Refusal::OutOfMemory),
    }
}

/// Asks where no token begins.
#[tactic(auto, using(crate::proofs::Steps::tokens_known, crate::proofs::Steps::lex_known))]
fn answer(alloc: Global, bytes: &[u8]) -> Result<Program, Refusal>
    requires limit { length bytes.now ≤ 1048576 }
    ensures verdict { IsVerdict bytes.now result }
{
    match lex(alloc, bytes) {
        Ok(tokens) => by_tokens(alloc, tokens),
        Err(LexFault::At { line, col }) => Err(Refusal::Lex { line, col }),
        Err(LexFault::OutOfMemory) => Err(Refusal::OutOfMemory),
    }
}

/// The declarations and the code that a source file in UTF-8 spells, or why it spells none: the verdict on the file. There is
/// one such answer, and it comes unless memory runs out.
#[tactic(auto, using(verdict_rules::specs::Unique::one_verdict))]
pub fn verdict_of(alloc: Global, bytes: &[u8]) -> Result<Program, Refusal>
    requires limit { length bytes.now ≤ 1048576 }
    ensures verdict { IsVerdict bytes.now result }
    ensures only { (other : Result programs.Program refusals.Refusal) → IsVerdict bytes.now other → Agrees result other }
{
    answer(alloc, bytes)
}
