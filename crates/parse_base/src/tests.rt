use crate::cursor::Tokens;
use std::alloc::Global;
use std::test::Fail;
use swift_lex::{Gap, Token, TokenKind, Word};

fn word(alloc: Global, text: &[u8]) -> Result<Word, Fail> {
    Ok(Word::new(text.to_vec(alloc)?))
}

fn token(kind: TokenKind, line: u32, gap: Gap) -> Token {
    Token {
        kind,
        line,
        col: 1,
        gap,
    }
}

/// The tokens of `f ( "hi`, where `(` stands on line 2.
#[test]
fn takes_tokens(rt: HostRuntime) -> Result<(), Fail> {
    let alloc = rt.alloc();
    let listed = [
        token(TokenKind::Name(word(alloc, b"f")?), 1, Gap::NewLine),
        token(TokenKind::Sign(word(alloc, b"(")?), 2, Gap::NewLine),
        token(TokenKind::StrOpen, 2, Gap::Spaced),
        token(TokenKind::StrText(word(alloc, b"hi")?), 2, Gap::Joined),
    ];
    let mut tokens = Tokens { rest: &listed };
    assert_eq!(rt; tokens.name(alloc).ok().map(|w| w.is(b"f")), Some(true));
    let before = tokens.rest;
    assert!(rt; tokens.sees(b"("));
    assert!(rt; !tokens.sees_on_line(b"("));
    assert!(rt; tokens.expect(b"(").is_ok());
    assert!(rt; tokens.open_string().is_ok());
    assert_eq!(rt; tokens.text(alloc).ok().map(|w| w.is(b"hi")), Some(true));
    let span = tokens.span_since(4, before);
    assert_eq!(rt; (span.first, span.last, span.line), (1, 3, 2));
    assert!(rt; tokens.name(alloc).is_err());
    Ok(())
}
