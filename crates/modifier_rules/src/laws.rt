ghost use Rattle.modifier_rules.specs.Laws.{OneValueCall, ValueCallsFound};

/// The search finds exactly what the rule of modifiers whose arguments are values relates.
pub fn value_calls_are_found()
    ensures law { ValueCallsFound }
{}

/// The rules relate a modifier whose arguments are values to one call at most.
pub fn one_value_call()
    ensures law { OneValueCall }
{}
