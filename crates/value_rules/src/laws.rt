ghost use Rattle.value_rules.specs.Values.{OneValue, ValuesFound};

/// The rules relate an expression to one core and one type at most.
pub fn one_value()
    ensures law { OneValue }
{}

/// The search finds exactly what the rules relate.
pub fn searches_find_values()
    ensures law { ValuesFound }
{}
