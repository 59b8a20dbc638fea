//! Which bytes spell a program, and why others spell none: the nine questions about a source file, in order, and that
//! they have one answer.
#![tactic(auto)]

ghost use Rattle.verdict_rules.specs.Laws.{NotBoth, OneJudgement, OneVerdict};

mod program;
mod refusal;

pub use program::Program;
pub use refusal::Refusal;

/// Any two verdicts on the same bytes are one, unless memory ran out.
#[tactic(auto, using(crate::specs::Laws::one_verdict))]
pub fn one_verdict()
    ensures law { OneVerdict }
{}

/// Bytes are judged in one way.
#[tactic(auto, using(crate::specs::Laws::one_judgement))]
pub fn one_judgement()
    ensures law { OneJudgement }
{}

/// Bytes that spell a program are refused for nothing.
#[tactic(auto, using(crate::specs::Laws::not_both))]
pub fn accepted_is_not_refused()
    ensures law { NotBoth }
{}
