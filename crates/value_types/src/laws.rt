ghost use Rattle.value_types.specs.Levels.{InferOfValues};
ghost use Rattle.value_types.specs.Tables.{CompletedOfValues, TypesFound};

/// A law: around an initial value, where all types so far are types of values, what is found has one.
pub fn inferred_is_of_values()
    ensures law { InferOfValues }
{}

/// A law: the types of the members of the completed table are types of values.
pub fn completed_is_of_values()
    ensures law { CompletedOfValues }
{}

/// A law: a type that is found of an initial value names data structs and enums alone.
pub fn found_is_of_values()
    ensures law { TypesFound }
{}
