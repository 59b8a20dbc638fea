use super::{balanced_len, bracket_of, first_piece, too_nested, unbalanced};
use std::alloc::{AllocError, Global};
use std::test::Fail;
use swift_lex::{Gap, Token, TokenKind, Word};

fn word(alloc: Global, bytes: &[u8]) -> Result<Word, AllocError> {
    Ok(Word::new(Vec::from_slice(alloc, bytes)?))
}

/// A token for each byte, each in a line of its own: `h` is the token of a hole, `n` a name, `i` the word `import`,
/// and any other byte a sign.
fn tokens(alloc: Global, text: &[u8]) -> Result<Vec<Token>, AllocError> {
    let mut all = Vec::new(alloc);
    let mut line: u32 = 0;
    for byte in text {
        line = line.wrapping_add(1);
        let kind = match *byte {
            b'h' => TokenKind::StrHole,
            b'n' => TokenKind::Name(word(alloc, b"n")?),
            b'i' => TokenKind::Reserved(word(alloc, b"import")?),
            sign => TokenKind::Sign(word(alloc, &[sign])?),
        };
        all.push(Token {
            kind,
            line,
            col: 1,
            gap: Gap::NewLine,
        })?;
    }
    Ok(all)
}

#[test]
fn each_has_its_partner(rt: HostRuntime) -> Result<(), Fail> {
    let rows = [
        (b"(n[n]{h)})".as_slice(), None),
        (b"".as_slice(), None),
        (b"(n]".as_slice(), Some(3)),
        (b"n)(".as_slice(), Some(2)),
        (b"([)]".as_slice(), Some(3)),
        (b"h]".as_slice(), Some(2)),
        (b"((n)[".as_slice(), Some(5)),
        (b"({n}".as_slice(), Some(1)),
    ];
    for (text, line) in rows {
        assert_eq!(rt; unbalanced(rt.alloc(), &tokens(rt.alloc(), text)?)?, line);
    }
    Ok(())
}

#[test]
fn sixty_four_may_nest(rt: HostRuntime) -> Result<(), Fail> {
    let mut text = Vec::new(rt.alloc());
    for _ in 0..64 {
        text.push(b'(')?;
    }
    assert_eq!(rt; too_nested(&tokens(rt.alloc(), &text)?), None);
    text.push(b'h')?;
    assert_eq!(rt; too_nested(&tokens(rt.alloc(), &text)?), Some(65));
    Ok(())
}

#[test]
fn a_piece_ends_at_its_brace(rt: HostRuntime) -> Result<(), Fail> {
    let rows = [
        (b"in{}n".as_slice(), 2),
        (b"i{n}n".as_slice(), 4),
        (b"n({n}){n{n}n}n{}".as_slice(), 13),
        (b"n({n})n".as_slice(), 7),
    ];
    for (text, len) in rows {
        let all = tokens(rt.alloc(), text)?;
        if unbalanced(rt.alloc(), &all)?.is_none() {
            let (piece, _) = first_piece(&all);
            assert_eq!(rt; piece.len(), len);
        }
        assert!(rt; bracket_of(&all[0]).is_none());
    }
    Ok(())
}

#[test]
fn a_front_ends_at_a_foreign_bracket(rt: HostRuntime) -> Result<(), Fail> {
    let rows = [
        (b"n(n)]n".as_slice(), Some(4)),
        (b"{n}".as_slice(), Some(3)),
        (b"(n".as_slice(), None),
        (b"(]".as_slice(), None),
    ];
    for (text, len) in rows {
        assert_eq!(rt; balanced_len(rt.alloc(), &tokens(rt.alloc(), text)?)?, len);
    }
    Ok(())
}
