use sv_items::Items;

/// One hop from a value to a part of it: to a field of a struct, by its number, or to an element of a list.
#[derive(Clone, Copy, Debug, PartialEq, Eq)]
pub enum Hop {
    Field(u32),
    Index(i64),
}

/// An index that is out of range.
#[derive(Clone, Copy, Debug, PartialEq, Eq)]
pub struct Missing {
    pub index: i64,
}

/// Hops, one after the other, from the whole value inwards.
pub type Hops = Items<Hop>;
