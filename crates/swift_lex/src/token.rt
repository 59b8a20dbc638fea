use crate::word::Word;

/// What stands between a token and the token before it.
#[derive(Clone, Copy, Debug, PartialEq, Eq)]
pub enum Gap {
    /// Nothing.
    Joined,
    /// Separators, but no line end.
    Spaced,
    /// Separators with a line end among them. The first token has this gap.
    NewLine,
}

/// The kind of a token, with its spelling or its meaning.
#[derive(Debug, Drop)]
pub enum TokenKind {
    /// A name that is not reserved.
    Name(Word),
    /// A `$` with the name behind it, as `$x`.
    Dollar(Word),
    /// An `@` with the name behind it, as `@State`.
    AtName(Word),
    /// A `#` with the name behind it, as `#Preview`.
    HashName(Word),
    /// A reserved word.
    Reserved(Word),
    /// A sign, as `(` or `..<`.
    Sign(Word),
    /// A number, from 0 to 9223372036854775807.
    Int(i64),
    /// The `"` that begins a string.
    StrOpen,
    /// A longest run of text and escapes in a string: the bytes that it means.
    StrText(Word),
    /// The `\(` in a string.
    StrHole,
    /// The `"` that ends a string.
    StrClose,
}

/// A token and where it stands.
#[derive(Debug, Drop)]
pub struct Token {
    pub kind: TokenKind,
    /// The line, from 1.
    pub line: u32,
    /// The column in bytes, from 1.
    pub col: u32,
    /// The gap to the token before.
    pub gap: Gap,
}
