ghost use Rattle.std.specs.Prelude.{◌≡◌, ℕ, [], Some, reverse, IfOk, MatchOption};
ghost use Rattle.token_brackets.specs.Brackets as spec;
ghost use Rattle.token_brackets.specs.Balance.{Balanced, Unbalanced};
ghost use Rattle.token_brackets.specs.Machine as machine;
ghost use Rattle.token_brackets.specs.Machine.{Stepped};

use crate::brackets::{Bracket, Shape, bracket_of};
use std::alloc::{AllocError, Global};
use swift_lex::Token;

/// A bracket that is left to close.
#[derive(Clone, Copy, Debug, PartialEq, Eq)]
pub struct Waiting {
    pub shape: Shape,
    pub line: u32,
}

/// Takes the innermost bracket, and says whether it has this shape.
pub fn close(left: &mut Vec<Waiting>, shape: Shape) -> bool
    ensures { Stepped (machine.closed shape (reverse left.old.items)) result left.new.items }
{
    match left.pop() {
        None => false,
        Some(waiting) => waiting.shape == shape,
    }
}

/// Takes a token in, and says whether it matches the brackets that are left to close.
fn step(left: &mut Vec<Waiting>, token: &Token) -> Result<bool, AllocError>
    ensures { IfOk result (λ b. Stepped (machine.step (spec.bracket_of token.now) token.now.line (reverse left.old.items)) b left.new.items) }
{
    match bracket_of(token) {
        None => Ok(true),
        Some(Bracket::Opens(shape)) => {
            left.push(Waiting {
                shape,
                line: token.line,
            })?;
            Ok(true)
        }
        Some(Bracket::Closes(shape)) => Ok(close(left, shape)),
    }
}

#[tactic(auto, using(crate::proofs::Walks::walk_turn, crate::proofs::Walks::walk_end, crate::proofs::Walks::matched, crate::proofs::Walks::unmatched, crate::proofs::Walks::reverse_last))]
/// The line of the first token that does not match, or of the innermost bracket that is left.
fn walk(alloc: Global, tokens: &[Token]) -> Result<Option<u32>, AllocError>
    ensures { IfOk result (λ o. o ≡ machine.fault_line (machine.walk [] tokens.now)) }
{
    let mut left = Vec::new(alloc);
    for token in tokens {
        if !step(&mut left, token)? {
            return Ok(Some(token.line));
        }
    }
    match left.pop() {
        None => Ok(None),
        Some(waiting) => Ok(Some(waiting.line)),
    }
}

/// The line of the first closing bracket that does not match the innermost one left to close, else, at the end,
/// that of the innermost one left to close. `None` where each bracket has its partner.
/// Fails only where memory runs out.
#[tactic(auto, using(crate::proofs::Walks::is_found, crate::proofs::Walks::is_only))]
pub fn unbalanced(alloc: Global, tokens: &[Token]) -> Result<Option<u32>, AllocError>
    ensures found { IfOk result (λ o. MatchOption o (Balanced tokens.now) (λ line. Unbalanced tokens.now line)) }
    ensures only { IfOk result (λ o. (line : ℕ) → Unbalanced tokens.now line → o ≡ Some line) }
{
    walk(alloc, tokens)
}
