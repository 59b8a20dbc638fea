use crate::patterns::pattern;
use crate::types::type_name;
use parse_base::Tokens;
use std::alloc::Global;
use std::test::Fail;
use swift_ast::{Pattern, TypeName};
use swift_lex::{Gap, Token, TokenKind, Word};

fn word(alloc: Global, text: &[u8]) -> Result<Word, Fail> {
    Ok(Word::new(text.to_vec(alloc)?))
}

fn token(kind: TokenKind, gap: Gap) -> Token {
    Token {
        kind,
        line: 1,
        col: 1,
        gap,
    }
}

fn sign(alloc: Global, text: &[u8]) -> Result<Token, Fail> {
    Ok(token(TokenKind::Sign(word(alloc, text)?), Gap::Spaced))
}

/// `[Int] ?` is an optional list, and `[ Int ?` is no type.
#[test]
fn reads_types(rt: HostRuntime) -> Result<(), Fail> {
    let alloc = rt.alloc();
    let whole = [
        sign(alloc, b"[")?,
        token(TokenKind::Name(word(alloc, b"Int")?), Gap::Joined),
        sign(alloc, b"]")?,
        sign(alloc, b"?")?,
    ];
    let mut tokens = Tokens { rest: &whole };
    let found = type_name(alloc, &mut tokens);
    assert!(rt; matches!(found, Ok(TypeName::Optional(_, 1))));
    assert!(rt; tokens.rest.is_empty());
    let mut part = Tokens { rest: &whole[..2] };
    assert!(rt; type_name(alloc, &mut part).is_err());
    Ok(())
}

/// `-7` is a pattern, and `- 7` is none.
#[test]
fn reads_patterns(rt: HostRuntime) -> Result<(), Fail> {
    let alloc = rt.alloc();
    let joined = [sign(alloc, b"-")?, token(TokenKind::Int(7), Gap::Joined)];
    let spaced = [sign(alloc, b"-")?, token(TokenKind::Int(7), Gap::Spaced)];
    let mut tokens = Tokens { rest: &joined };
    let found = pattern(alloc, &mut tokens);
    assert!(rt; matches!(found, Ok(Pattern::Minus(7))));
    let mut tokens = Tokens { rest: &spaced };
    assert!(rt; pattern(alloc, &mut tokens).is_err());
    Ok(())
}
