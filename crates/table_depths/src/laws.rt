ghost use Rattle.table_depths.specs.Shallow.{StructsShallow};

/// A law: no data struct is deeper than a type may be.
pub fn structs_are_shallow()
    ensures law { StructsShallow }
{}
