use swift_ast::{CaseName, Entry, Member, Piece};

/// A part of a source file that is checked by itself: a declaration as a whole, a member of it, a case of an enum, or an
/// environment key.
#[derive(Clone, Copy)]
pub enum PartRef<'s> {
    Declaration(&'s Piece),
    Member(&'s Member),
    Case(&'s CaseName),
    Entry(&'s Entry),
}
