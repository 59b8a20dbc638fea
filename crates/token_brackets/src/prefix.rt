ghost use Rattle.std.specs.Prelude.{◌≡◌, ℕ, Some, reverse, IfOk, IfSome};
ghost use Rattle.token_brackets.specs.Brackets as spec;
ghost use Rattle.token_brackets.specs.Prefix as prefix;
ghost use Rattle.token_brackets.specs.Prefix.{Moved};

use crate::brackets::{Bracket, Shape, bracket_of};
use crate::partners::{Waiting, close};
use std::alloc::{AllocError, Global};
use swift_lex::Token;

/// What a token does to the balanced text at the front.
#[derive(Clone, Copy, Debug, PartialEq, Eq)]
pub enum Step {
    /// It is not part of it.
    Ends,
    Goes,
    /// It does not match the innermost bracket that is left to close.
    Fails,
}

/// What a closing bracket of this shape does.
fn close_step(left: &mut Vec<Waiting>, shape: Shape) -> Step
    ensures { Moved (prefix.close_move shape (reverse left.old.items)) result left.new.items }
{
    if left.is_empty() {
        return Step::Ends;
    }
    if close(left, shape) {
        Step::Goes
    } else {
        Step::Fails
    }
}

/// What a token does, taken in.
fn take_in(left: &mut Vec<Waiting>, token: &Token) -> Result<Step, AllocError>
    ensures { IfOk result (λ s. Moved (prefix.move (spec.bracket_of token.now) token.now.line (reverse left.old.items)) s left.new.items) }
{
    match bracket_of(token) {
        None => Ok(Step::Goes),
        Some(Bracket::Opens(shape)) => {
            left.push(Waiting {
                shape,
                line: token.line,
            })?;
            Ok(Step::Goes)
        }
        Some(Bracket::Closes(shape)) => Ok(close_step(left, shape)),
    }
}

/// The answer behind the last of `n` tokens.
#[tactic(auto, using(crate::proofs::Walks::reverse_last))]
fn at_end(mut left: Vec<Waiting>, n: usize) -> Option<usize>
    ensures { result ≡ prefix.end_answer (reverse left.items) n }
{
    match left.pop() {
        None => Some(n),
        Some(_) => None,
    }
}

/// The length of the balanced text at the front.
fn front_len(alloc: Global, tokens: &[Token]) -> Result<Option<usize>, AllocError>
    ensures { IfOk result (λ o. o ≡ prefix.balanced_len tokens.now) }
{
    let mut left = Vec::new(alloc);
    for (i, token) in tokens.iter().enumerate() {
        match take_in(&mut left, token)? {
            Step::Ends => return Ok(Some(i)),
            Step::Goes => {}
            Step::Fails => return Ok(None),
        }
    }
    Ok(at_end(left, tokens.len()))
}

/// How many tokens the balanced text at the front has that ends before a closing bracket or with the tokens. `None`
/// where there is no such text. Fails only where memory runs out.
pub fn balanced_len(alloc: Global, tokens: &[Token]) -> Result<Option<usize>, AllocError>
    ensures value { IfOk result (λ o. o ≡ prefix.balanced_len tokens.now) }
    ensures found { IfOk result (λ o. IfSome o (prefix.IsFront tokens.now)) }
    ensures only { IfOk result (λ o. (n : ℕ) → prefix.IsFront tokens.now n → o ≡ Some n) }
{
    front_len(alloc, tokens)
}
