/// A piece of code of the program, by its number: 0 is the default of the built-in environment key, and a member or an
/// environment key number i in text order, from 0, has the number i + 1. The blocks of the members come after these.
#[derive(Clone, Copy, Debug, PartialEq, Eq)]
pub struct CodeId {
    pub number: usize,
}

/// A unit: the app, a custom view or a preference reader, by the number of the code that builds it.
#[derive(Clone, Copy, Debug, PartialEq, Eq)]
pub struct UnitId {
    pub number: usize,
}

/// A block of a member, which is an action block or the builder of a preference reader, by its place among the blocks
/// of the member, from 0.
#[derive(Clone, Copy, Debug, PartialEq, Eq)]
pub struct BlockId {
    pub number: usize,
}

/// Where a state slot is kept.
#[derive(Clone, Copy, Debug, PartialEq, Eq)]
pub enum PlaceRule {
    /// This slot of the cells of the view's own path.
    Own(u32),
    /// This slot of the cells of the empty path.
    Shared(u32),
}
