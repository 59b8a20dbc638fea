ghost use Rattle.std.specs.Prelude.{◌≡◌};
ghost use Rattle.token_brackets.specs.Brackets as spec;

use swift_lex::{Token, TokenKind, Word};

/// The shapes of brackets: `( )`, `[ ]` and `{ }`.
#[derive(Clone, Copy, Debug, PartialEq, Eq)]
pub enum Shape {
    Round,
    Square,
    Curly,
}

/// What a bracket does. The `\(` of a string opens a round one.
#[derive(Clone, Copy, Debug, PartialEq, Eq)]
pub enum Bracket {
    Opens(Shape),
    Closes(Shape),
}

fn sign_bracket(word: &Word) -> Option<Bracket>
    ensures { result ≡ spec.sign_bracket word.now }
{
    if word.is(b"(") {
        Some(Bracket::Opens(Shape::Round))
    } else if word.is(b")") {
        Some(Bracket::Closes(Shape::Round))
    } else if word.is(b"[") {
        Some(Bracket::Opens(Shape::Square))
    } else if word.is(b"]") {
        Some(Bracket::Closes(Shape::Square))
    } else if word.is(b"{") {
        Some(Bracket::Opens(Shape::Curly))
    } else if word.is(b"}") {
        Some(Bracket::Closes(Shape::Curly))
    } else {
        None
    }
}

/// The bracket that a token is, if it is one.
#[tactic(auto, unfolding(crate::specs::Brackets::bracket_of))]
pub fn bracket_of(token: &Token) -> Option<Bracket>
    ensures { result ≡ spec.bracket_of token.now }
{
    match &token.kind {
        TokenKind::Sign(word) => sign_bracket(word),
        TokenKind::StrHole => Some(Bracket::Opens(Shape::Round)),
        _ => None,
    }
}
