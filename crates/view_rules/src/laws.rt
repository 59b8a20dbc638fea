ghost use Rattle.view_rules.specs.Laws.{BuildersFound, OneBuilder, OneScene, ScenesFound};

/// The search finds exactly what the rule of the items of a builder relates.
pub fn builders_are_found()
    ensures law { BuildersFound }
{}

/// The search finds exactly what the rule of the body of the app relates.
pub fn scenes_are_found()
    ensures law { ScenesFound }
{}

/// The rules relate the statements of a builder to one list of items and their blocks at most.
pub fn one_builder()
    ensures law { OneBuilder }
{}

/// The rules relate the body of the app to one list of items and their blocks at most.
pub fn one_scene()
    ensures law { OneScene }
{}
