//! What no clause says: that the definitions mean what a reader of Swift expects.

use crate::{Gap, LexFault, Token, TokenKind, Word, lex};
use std::alloc::{AllocError, Global};
use std::test::Fail;

fn put_word(text: &mut String, letter: char, word: &Word) -> Result<(), AllocError> {
    text.push(letter)?;
    for b in word.as_bytes() {
        text.push(char::from(*b))?;
    }
    Ok(())
}

fn put_kind(text: &mut String, kind: &TokenKind) -> Result<(), AllocError> {
    match kind {
        TokenKind::Name(word) => put_word(text, 'N', word),
        TokenKind::Dollar(word) => put_word(text, 'D', word),
        TokenKind::AtName(word) => put_word(text, 'A', word),
        TokenKind::HashName(word) => put_word(text, 'H', word),
        TokenKind::Reserved(word) => put_word(text, 'R', word),
        TokenKind::Sign(word) => put_word(text, 'S', word),
        TokenKind::Int(n) => write!(text, "I{n}"),
        TokenKind::StrOpen => text.push('<'),
        TokenKind::StrText(word) => put_word(text, 'T', word),
        TokenKind::StrHole => text.push('{'),
        TokenKind::StrClose => text.push('>'),
    }
}

fn put_token(text: &mut String, token: &Token) -> Result<(), AllocError> {
    let gap = match token.gap {
        Gap::Joined => "-",
        Gap::Spaced => "~",
        Gap::NewLine => "/",
    };
    let line = token.line;
    let col = token.col;
    write!(text, "{gap}{line}:{col}")?;
    put_kind(text, &token.kind)?;
    text.push(' ')
}

/// The tokens of a text, or its fault, in words.
fn told(alloc: Global, bytes: &[u8]) -> Result<String, AllocError> {
    let mut text = String::new(alloc);
    if bytes.len() > 1048576 {
        return Ok(text);
    }
    match lex(alloc, bytes) {
        Ok(tokens) => {
            for token in &tokens {
                put_token(&mut text, token)?;
            }
        }
        Err(LexFault::At { line, col }) => write!(text, "{line}:{col}")?,
        Err(LexFault::OutOfMemory) => text.push_str("memory")?,
    }
    Ok(text)
}

#[test]
fn tokens_of_each_kind(rt: HostRuntime) -> Result<(), Fail> {
    let rows: [(&str, &str); 14] = [
        ("n+1", "/1:1Nn -1:2S+ -1:3I1 "),
        ("@State $x #Preview", "/1:1A@State ~1:8D$x ~1:11H#Preview "),
        ("if a_1 {}", "/1:1Rif ~1:4Na_1 ~1:8S{ -1:9S} "),
        (
            "0xfF 0o17 0b101 1_000",
            "/1:1I255 ~1:6I15 ~1:11I5 ~1:17I1000 ",
        ),
        (
            "0x_1 1__2 1_ 0b12",
            "/1:1I0 -1:2Nx_1 ~1:6I12 ~1:11I1 -1:12N_ ~1:14I1 -1:17I2 ",
        ),
        ("9223372036854775807", "/1:1I9223372036854775807 "),
        (
            "a..<b...c..d",
            "/1:1Na -1:2S..< -1:5Nb -1:6S... -1:9Nc -1:10S. -1:11S. -1:12Nd ",
        ),
        (
            "x!! a!=b Int?? \\.c",
            "/1:1Nx -1:2S! -1:3S! ~1:5Na -1:6S!= -1:8Nb ~1:10NInt -1:13S?? ~1:16S\\ -1:17S. -1:18Nc ",
        ),
        (
            "a/* /* */ x */b/*\n*/c//d\r\ne",
            "/1:1Na ~1:15Nb /2:3Nc /3:1Ne ",
        ),
        ("a\rb // \rc\nd", "/1:1Na ~1:3Nb /2:1Nd "),
        ("\u{FEFF}a", "/1:1Na "),
        (
            "\"\" \"a\rb\\n\\0\\'\\u{41}\"",
            "/1:1< -1:2> ~1:4< -1:5Ta\rb\n\0'A -1:20> ",
        ),
        (
            "\"a\\(b(\"c\\(d)\"))e\"",
            "/1:1< -1:2Ta -1:3{ -1:5Nb -1:6S( -1:7< -1:8Tc -1:9{ -1:11Nd -1:12S) -1:13> -1:14S) -1:15S) -1:16Te -1:17> ",
        ),
        ("", ""),
    ];
    for (text, want) in rows {
        let found = told(rt.alloc(), text.as_bytes())?;
        assert_eq!(rt; found.as_str(), want, "at {text}");
    }
    Ok(())
}

#[test]
fn faults(rt: HostRuntime) -> Result<(), Fail> {
    let rows: [(&[u8], &str); 24] = [
        (b"import SwiftUI\n/* x", "2:1"),
        (b"import \xFF", "1:8"),
        (b"let x = \"a\\q\"", "1:11"),
        (b"a & b", "1:3"),
        (b"$", "1:1"),
        (b"a /* /* */", "1:3"),
        (b"\"ab", "1:4"),
        (b"\"ab\r\n", "1:4"),
        (b"\"\\u{D800}\"", "1:2"),
        (b"\"\\u{110000}\"", "1:2"),
        (b"\"\\u{}\"", "1:2"),
        (b"\"\\u{000000041}\"", "1:2"),
        (b"9223372036854775808", "1:1"),
        (b"x 0xFFFFFFFFFFFFFFFF", "1:3"),
        (b"\"\\(a\r\n)\"", "1:5"),
        (b"\"\\( /* ", "1:5"),
        (b"\"\\(/* \n */ b)\"", "1:7"),
        (b"\"\\(a // b)\"", "1:12"),
        (b"/* \xFF */", "1:4"),
        (b"/* \xFF ", "1:1"),
        (b"// \xFF\na", "1:4"),
        (b"\"\xE2\x82A\"", "1:2"),
        (b"\"\xED\xA0\x80\"", "1:2"),
        (b"\"\\((", "1:5"),
    ];
    for (text, want) in rows {
        let found = told(rt.alloc(), text)?;
        assert_eq!(rt; found.as_str(), want, "at {text:?}");
    }
    Ok(())
}

/// A text with `front` and then `back`, each so many times.
fn repeated(alloc: Global, front: &[u8], back: &[u8], times: usize) -> Result<Vec<u8>, AllocError> {
    let mut text = Vec::new(alloc);
    for _turn in 0..times {
        text.extend_from_slice(front)?;
    }
    for _turn in 0..times {
        text.extend_from_slice(back)?;
    }
    Ok(text)
}

/// How many tokens a text has. None where it has a fault.
fn count(alloc: Global, bytes: &[u8]) -> Option<usize> {
    if bytes.len() > 1048576 {
        return None;
    }
    match lex(alloc, bytes) {
        Ok(tokens) => Some(tokens.len()),
        Err(_) => None,
    }
}

#[test]
fn large_texts(rt: HostRuntime) -> Result<(), Fail> {
    let rows: [(&[u8], &[u8], usize, usize); 6] = [
        (b"(", b"", 1048576, 1048576),
        (b"/*", b"*/", 262144, 0),
        (b"\"\\(", b")\"", 209715, 838860),
        (b"abcd", b"", 262144, 1),
        (b"\xC3\xA9\n", b"", 1, 0),
        (b"// \xC3\xA9 \n(", b"", 131072, 131072),
    ];
    for (front, back, times, want) in rows {
        let text = repeated(rt.alloc(), front, back, times)?;
        let found = count(rt.alloc(), &text).unwrap_or(0);
        assert_eq!(rt; found, want, "at {front:?}");
    }
    Ok(())
}
