ghost use Rattle.view_cores.specs.Laws.{BuildersTyped, ScenesTyped};

/// The items of a builder are well typed, with the blocks that it adds behind those before it.
pub fn builders_are_well_typed()
    ensures law { BuildersTyped }
{}

/// The body of the app is well typed, with the blocks that it adds behind those before it.
pub fn scenes_are_well_typed()
    ensures law { ScenesTyped }
{}
