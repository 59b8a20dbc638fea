ghost use Rattle.value_cores.specs.Values.{ArgumentsTyped, BindingsTyped, EffectsTyped, FillingsTyped, IndicesTyped, TargetsTyped, ValuesTyped, WantedTyped};

/// What an expression becomes has the type that the rules give.
pub fn values_are_well_typed()
    ensures law { ValuesTyped }
{}

/// Where a value of a type is expected, it has that type.
pub fn wanted_values_are_well_typed()
    ensures law { WantedTyped }
{}

/// The place that an assignment writes leads to a value of the type.
pub fn targets_are_well_typed()
    ensures law { TargetsTyped }
{}

/// The place of a binding leads to a value of the type, and can be bound.
pub fn bindings_are_well_typed()
    ensures law { BindingsTyped }
{}

/// An expression that is a statement is a call without a value, or one that may drop it.
pub fn effects_are_well_typed()
    ensures law { EffectsTyped }
{}

/// What fills the properties of a declaration fits each of them.
pub fn fillings_are_well_typed()
    ensures law { FillingsTyped }
{}

/// The arguments of a function have the types of its parameters.
pub fn arguments_are_well_typed()
    ensures law { ArgumentsTyped }
{}

/// The indices that are gone over are those of a list.
pub fn indices_are_well_typed()
    ensures law { IndicesTyped }
{}
