ghost use Rattle.std.specs.Prelude.{◌≡◌, is_some};
ghost use Rattle.parse_base.specs.Parser.{Reads, starts, take_one};
ghost use Rattle.parse_base.specs.Spans.{line_of, span_of};
ghost use Rattle.parse_base.specs.Terminals as terminals;
ghost use Rattle.parse_base.specs.Terminals.{a_directive, a_name, a_sign, a_text, a_word, an_attribute, hole_open, on_line, string_close, string_open};
ghost use Rattle.parse_base.specs.Tokens as seen;

use crate::stop::Stop;
use std::alloc::Global;
use swift_ast::Span;
use swift_lex::{Gap, Token, TokenKind, Word};

/// What is left to read.
#[derive(Drop)]
pub struct Tokens<'a> {
    pub rest: &'a [Token],
}

/// Whether the next token follows with no gap.
pub fn joined_next(rest: &[Token]) -> bool
    ensures { result ≡ terminals.joined_next rest.now }
{
    match rest {
        [] => false,
        [next, ..] => is_joined(next),
    }
}

/// Whether the token is this sign.
pub fn is_sign(token: &Token, sign: &[u8]) -> bool
    ensures { result ≡ seen.is_sign sign.now token.now }
{
    match &token.kind {
        TokenKind::Sign(word) => word.is(sign),
        _ => false,
    }
}

/// Whether the token is this reserved word.
pub fn is_reserved(token: &Token, word: &[u8]) -> bool
    ensures { result ≡ seen.is_reserved word.now token.now }
{
    match &token.kind {
        TokenKind::Reserved(found) => found.is(word),
        _ => false,
    }
}

/// Whether the token has no gap to the token before.
pub fn is_joined(token: &Token) -> bool
    ensures { result ≡ seen.is_joined token.now }
{
    match token.gap {
        Gap::Joined => true,
        _ => false,
    }
}

/// Whether a line end stands before the token.
pub fn is_on_new_line(token: &Token) -> bool
    ensures { result ≡ seen.is_on_new_line token.now }
{
    match token.gap {
        Gap::NewLine => true,
        _ => false,
    }
}

fn is_name(token: &Token) -> bool
    ensures { result ≡ is_some (terminals.name_by token.now.kind) }
{
    match &token.kind {
        TokenKind::Name(_) => true,
        _ => false,
    }
}

impl<'a> Tokens<'a> {
    /// The span of the tokens from `before` up to this place, in a file of `total` tokens.
    pub fn span_since(&self, total: usize, before: &[Token]) -> Span
        ensures { result ≡ span_of total before.now self.now.rest.now }
    {
        let line = match before {
            [] => 0,
            [first, ..] => first.line,
        };
        Span {
            first: total.saturating_sub(before.len()),
            last: total.saturating_sub(self.rest.len()).saturating_sub(1),
            line,
        }
    }

    /// Whether this sign stands here.
    #[tactic(auto, unfolding(crate::specs::Parser::starts))]
    pub fn sees(&self, sign: &[u8]) -> bool
        ensures { result ≡ starts (a_sign sign.now) self.now.rest.now }
    {
        match self.rest {
            [] => false,
            [first, ..] => is_sign(first, sign),
        }
    }

    /// Whether this reserved word stands here.
    #[tactic(auto, unfolding(crate::specs::Parser::starts))]
    pub fn sees_word(&self, word: &[u8]) -> bool
        ensures { result ≡ starts (a_word word.now) self.now.rest.now }
    {
        match self.rest {
            [] => false,
            [first, ..] => is_reserved(first, word),
        }
    }

    /// Whether this sign stands here, not on a new line.
    #[tactic(auto, unfolding(crate::specs::Parser::starts))]
    pub fn sees_on_line(&self, sign: &[u8]) -> bool
        ensures { result ≡ starts (on_line sign.now) self.now.rest.now }
    {
        match self.rest {
            [] => false,
            [first, ..] => is_sign(first, sign) && !is_on_new_line(first),
        }
    }

    /// Whether a name stands here.
    #[tactic(auto, unfolding(crate::specs::Parser::starts))]
    pub fn sees_name(&self) -> bool
        ensures { result ≡ starts a_name self.now.rest.now }
    {
        match self.rest {
            [] => false,
            [first, ..] => is_name(first),
        }
    }

    /// Whether a run of text of a string stands here.
    #[tactic(auto, unfolding(crate::specs::Parser::starts))]
    pub fn sees_text(&self) -> bool
        ensures { result ≡ starts a_text self.now.rest.now }
    {
        match self.rest {
            [] => false,
            [first, ..] => match &first.kind {
                TokenKind::StrText(_) => true,
                _ => false,
            },
        }
    }

    /// Whether a string begins here.
    #[tactic(auto, unfolding(crate::specs::Parser::starts))]
    pub fn sees_string(&self) -> bool
        ensures { result ≡ starts string_open self.now.rest.now }
    {
        match self.rest {
            [] => false,
            [first, ..] => match &first.kind {
                TokenKind::StrOpen => true,
                _ => false,
            },
        }
    }

    /// Whether `\(` stands here.
    #[tactic(auto, unfolding(crate::specs::Parser::starts))]
    pub fn sees_hole(&self) -> bool
        ensures { result ≡ starts hole_open self.now.rest.now }
    {
        match self.rest {
            [] => false,
            [first, ..] => match &first.kind {
                TokenKind::StrHole => true,
                _ => false,
            },
        }
    }

    /// Whether this attribute stands here, as `@main`.
    #[tactic(auto, unfolding(crate::specs::Parser::starts))]
    pub fn sees_attribute(&self, word: &[u8]) -> bool
        ensures { result ≡ starts (an_attribute word.now) self.now.rest.now }
    {
        match self.rest {
            [] => false,
            [first, ..] => match &first.kind {
                TokenKind::AtName(found) => found.is(word),
                _ => false,
            },
        }
    }

    /// Whether this directive stands here, as `#Preview`.
    #[tactic(auto, unfolding(crate::specs::Parser::starts))]
    pub fn sees_directive(&self, word: &[u8]) -> bool
        ensures { result ≡ starts (a_directive word.now) self.now.rest.now }
    {
        match self.rest {
            [] => false,
            [first, ..] => match &first.kind {
                TokenKind::HashName(found) => found.is(word),
                _ => false,
            },
        }
    }

    /// Whether a name and `:` stand here.
    #[tactic(auto, unfolding(crate::specs::Terminals::label_ahead, crate::specs::Parser::starts))]
    pub fn label_ahead(&self) -> bool
        ensures { result ≡ terminals.label_ahead self.now.rest.now }
    {
        match self.rest {
            [name, colon, ..] => is_name(name) && is_sign(colon, b":"),
            _ => false,
        }
    }

    /// Whether this reserved word stands second.
    #[tactic(auto, unfolding(crate::specs::Parser::starts))]
    pub fn word_next(&self, word: &[u8]) -> bool
        ensures { result ≡ terminals.word_next word.now self.now.rest.now }
    {
        match self.rest {
            [_, second, ..] => is_reserved(second, word),
            _ => false,
        }
    }

    /// Whether this sign stands second.
    #[tactic(auto, unfolding(crate::specs::Parser::starts))]
    pub fn sign_next(&self, sign: &[u8]) -> bool
        ensures { result ≡ terminals.sign_next sign.now self.now.rest.now }
    {
        match self.rest {
            [_, second, ..] => is_sign(second, sign),
            _ => false,
        }
    }

    /// Takes this sign.
    #[tactic(auto, unfolding(crate::specs::Parser::take_one))]
    pub fn expect(&mut self, sign: &[u8]) -> Result<(), Stop>
        ensures { Reads (take_one (a_sign sign.now) self.old.rest.now) result self.new.rest.now }
    {
        match self.rest {
            [first, rest @ ..] if is_sign(first, sign) => {
                self.rest = rest;
                Ok(())
            }
            _ => Err(Stop::Refused),
        }
    }

    /// Takes this reserved word.
    #[tactic(auto, unfolding(crate::specs::Parser::take_one))]
    pub fn expect_word(&mut self, word: &[u8]) -> Result<(), Stop>
        ensures { Reads (take_one (a_word word.now) self.old.rest.now) result self.new.rest.now }
    {
        match self.rest {
            [first, rest @ ..] if is_reserved(first, word) => {
                self.rest = rest;
                Ok(())
            }
            _ => Err(Stop::Refused),
        }
    }

    /// Takes this sign where it is not on a new line.
    #[tactic(auto, unfolding(crate::specs::Parser::take_one))]
    pub fn expect_on_line(&mut self, sign: &[u8]) -> Result<(), Stop>
        ensures { Reads (take_one (on_line sign.now) self.old.rest.now) result self.new.rest.now }
    {
        match self.rest {
            [first, rest @ ..] if is_sign(first, sign) && !is_on_new_line(first) => {
                self.rest = rest;
                Ok(())
            }
            _ => Err(Stop::Refused),
        }
    }

    /// Takes this attribute.
    #[tactic(auto, unfolding(crate::specs::Parser::take_one))]
    pub fn expect_attribute(&mut self, word: &[u8]) -> Result<(), Stop>
        ensures { Reads (take_one (an_attribute word.now) self.old.rest.now) result self.new.rest.now }
    {
        let Some((first, rest)) = self.rest.split_first() else {
            return Err(Stop::Refused);
        };
        self.rest = rest;
        match &first.kind {
            TokenKind::AtName(found) if found.is(word) => Ok(()),
            _ => Err(Stop::Refused),
        }
    }

    /// Takes this directive.
    #[tactic(auto, unfolding(crate::specs::Parser::take_one))]
    pub fn expect_directive(&mut self, word: &[u8]) -> Result<(), Stop>
        ensures { Reads (take_one (a_directive word.now) self.old.rest.now) result self.new.rest.now }
    {
        let Some((first, rest)) = self.rest.split_first() else {
            return Err(Stop::Refused);
        };
        self.rest = rest;
        match &first.kind {
            TokenKind::HashName(found) if found.is(word) => Ok(()),
            _ => Err(Stop::Refused),
        }
    }

    /// Takes the `"` that begins a string.
    #[tactic(auto, unfolding(crate::specs::Parser::take_one))]
    pub fn open_string(&mut self) -> Result<(), Stop>
        ensures { Reads (take_one string_open self.old.rest.now) result self.new.rest.now }
    {
        let Some((first, rest)) = self.rest.split_first() else {
            return Err(Stop::Refused);
        };
        self.rest = rest;
        match &first.kind {
            TokenKind::StrOpen => Ok(()),
            _ => Err(Stop::Refused),
        }
    }

    /// Takes `\(`.
    #[tactic(auto, unfolding(crate::specs::Parser::take_one))]
    pub fn open_hole(&mut self) -> Result<(), Stop>
        ensures { Reads (take_one hole_open self.old.rest.now) result self.new.rest.now }
    {
        let Some((first, rest)) = self.rest.split_first() else {
            return Err(Stop::Refused);
        };
        self.rest = rest;
        match &first.kind {
            TokenKind::StrHole => Ok(()),
            _ => Err(Stop::Refused),
        }
    }

    /// Takes the `"` that ends a string.
    #[tactic(auto, unfolding(crate::specs::Parser::take_one))]
    pub fn close_string(&mut self) -> Result<(), Stop>
        ensures { Reads (take_one string_close self.old.rest.now) result self.new.rest.now }
    {
        let Some((first, rest)) = self.rest.split_first() else {
            return Err(Stop::Refused);
        };
        self.rest = rest;
        match &first.kind {
            TokenKind::StrClose => Ok(()),
            _ => Err(Stop::Refused),
        }
    }

    /// Takes a name.
    #[tactic(auto, unfolding(crate::specs::Parser::take_one))]
    pub fn name(&mut self, alloc: Global) -> Result<Word, Stop>
        ensures { Reads (take_one a_name self.old.rest.now) result self.new.rest.now }
    {
        let Some((first, rest)) = self.rest.split_first() else {
            return Err(Stop::Refused);
        };
        self.rest = rest;
        match &first.kind {
            TokenKind::Name(word) => Ok(word.copy(alloc)?),
            _ => Err(Stop::Refused),
        }
    }

    /// Takes a run of text of a string.
    #[tactic(auto, unfolding(crate::specs::Parser::take_one))]
    pub fn text(&mut self, alloc: Global) -> Result<Word, Stop>
        ensures { Reads (take_one a_text self.old.rest.now) result self.new.rest.now }
    {
        let Some((first, rest)) = self.rest.split_first() else {
            return Err(Stop::Refused);
        };
        self.rest = rest;
        match &first.kind {
            TokenKind::StrText(word) => Ok(word.copy(alloc)?),
            _ => Err(Stop::Refused),
        }
    }
}
