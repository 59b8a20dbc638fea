/// Where a part of the tree stands in the list of tokens.
#[derive(Clone, Copy, Debug, PartialEq, Eq)]
pub struct Span {
    /// The index of its first token, from 0.
    pub first: usize,
    /// The index of its last token.
    pub last: usize,
    /// The line of its first token, from 1.
    pub line: u32,
}
