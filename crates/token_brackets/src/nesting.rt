ghost use Rattle.std.specs.Prelude.{◌≡◌, ◌<◌, ◌≤◌, ◌+◌, ◌-◌, ◌^◌, ◌&&◌, nat_le, ℕ, Some, MatchOption};
ghost use Rattle.token_brackets.specs.Brackets.{bracket_of};
ghost use Rattle.token_brackets.specs.Depth.{IsShallow, TooNested, opens_by};
ghost use Rattle.token_brackets.specs.Counting as machine;

use crate::brackets::{Bracket, bracket_of};
use swift_lex::Token;

/// Within so many others no bracket may stand.
pub const MAX_DEPTH: usize = 64;

/// How many brackets a text opens and closes.
#[derive(Clone, Copy, Debug, PartialEq, Eq)]
pub struct Counts {
    pub opened: usize,
    pub closed: usize,
}

/// The counts behind a token.
fn counted(token: &Token, before: Counts) -> Counts
    requires opened { before.opened < 2 ^ 63 }
    requires closed { before.closed < 2 ^ 63 }
    ensures value { result ≡ machine.counted (bracket_of token.now) before }
    ensures opens { result.opened ≤ before.opened + 1 }
    ensures closes { result.closed ≤ before.closed + 1 }
{
    match bracket_of(token) {
        None => before,
        Some(Bracket::Opens(_)) => Counts {
            opened: before.opened + 1,
            closed: before.closed,
        },
        Some(Bracket::Closes(_)) => Counts {
            opened: before.opened,
            closed: before.closed + 1,
        },
    }
}

/// Whether the token is a bracket that opens where too many are open.
fn is_deep(token: &Token, before: Counts) -> bool
    ensures { result ≡ (opens_by (bracket_of token.now) && nat_le 64 (before.opened - before.closed)) }
{
    match bracket_of(token) {
        Some(Bracket::Opens(_)) => before.opened.saturating_sub(before.closed) >= MAX_DEPTH,
        _ => false,
    }
}

#[tactic(auto, using(crate::proofs::Depths::counted_more, crate::proofs::Depths::shallow_more, crate::proofs::Depths::all_shallow, crate::proofs::Depths::first_deep, crate::proofs::Depths::counted_none))]
fn first_deep(tokens: &[Token]) -> Option<u32>
    ensures { MatchOption result (IsShallow 64 tokens.now) (λ line. TooNested 64 tokens.now line) }
{
    let mut counts = Counts {
        opened: 0,
        closed: 0,
    };
    for token in tokens {
        if is_deep(token, counts) {
            return Some(token.line);
        }
        counts = counted(token, counts);
    }
    None
}

/// The line of the first bracket that stands within 64 others, if there is one.
#[tactic(auto, using(crate::proofs::Depths::only_line))]
pub fn too_nested(tokens: &[Token]) -> Option<u32>
    ensures found { MatchOption result (IsShallow 64 tokens.now) (λ line. TooNested 64 tokens.now line) }
    ensures only { (line : ℕ) → TooNested 64 tokens.now line → result ≡ Some line }
{
    first_deep(tokens)
}
