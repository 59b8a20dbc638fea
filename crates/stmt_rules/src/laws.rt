ghost use Rattle.stmt_rules.specs.Laws.{BlocksFound, BodiesFound, OneBlock, OneBody};

/// The search finds exactly what the rule of action blocks relates.
pub fn blocks_are_found()
    ensures law { BlocksFound }
{}

/// The search finds exactly what the rule of functions and computed properties relates.
pub fn bodies_are_found()
    ensures law { BodiesFound }
{}

/// The rules relate an action block to one list of core statements at most.
pub fn one_block()
    ensures law { OneBlock }
{}

/// The rules relate the statements of a function or a computed property to one list of core statements at most.
pub fn one_body()
    ensures law { OneBody }
{}
