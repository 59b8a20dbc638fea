ghost use Rattle.modifier_cores.specs.Values.{ValueCallsTyped};

/// A modifier whose arguments are values takes what its kind asks for.
pub fn value_calls_are_well_typed()
    ensures law { ValueCallsTyped }
{}
