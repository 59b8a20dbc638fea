use sv_items::Boxed;
use swift_lex::Word;

/// A type as it is written. Brackets round a type leave no node.
#[cycle(types)]
#[derive(Drop)]
pub enum TypeName {
    /// A name, as `Int`.
    Name(Word),
    /// The type of the elements of a list, as in `[Int]`.
    List(Boxed<TypeName>),
    /// A type with one `?` or more behind it, and how many.
    Optional(Boxed<TypeName>, usize),
}
