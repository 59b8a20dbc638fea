ghost use Rattle.stmt_cores.specs.Laws.{ConditionsTyped, OversTyped, SubjectsTyped};
ghost use Rattle.stmt_cores.specs.Statements.{BlocksTyped, BodiesTyped};

/// Conditions are well typed, and add the locals that they declare.
pub fn conditions_are_well_typed()
    ensures law { ConditionsTyped }
{}

/// What a loop goes over has items of the type that the rules give.
pub fn overs_are_well_typed()
    ensures law { OversTyped }
{}

/// The labels of a `switch` match each value of the type that it is over.
pub fn subjects_are_well_typed()
    ensures law { SubjectsTyped }
{}

/// The statements of an action block are well typed, and give no value.
pub fn blocks_are_well_typed()
    ensures law { BlocksTyped }
{}

/// The statements of a function or a computed property give a value of its result's type, or none where it has no result.
pub fn bodies_are_well_typed()
    ensures law { BodiesTyped }
{}
