use crate::ids::{BlockId, CodeId};

/// What a term mentions.
#[derive(Clone, Copy, Debug, PartialEq, Eq)]
pub enum Mention {
    /// The local at this place.
    Local(usize),
    /// A piece of code of the program that the term runs: a computed property, a function, a static, or a property or
    /// function that gives views.
    Code(CodeId),
    /// A write to a state slot or through a binding.
    Write,
    /// A block of the member.
    Block(BlockId),
}
