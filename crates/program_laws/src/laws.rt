ghost use Rattle.program_laws.specs.Programs.{EveryProgramIsOne};

/// A law: every program that a file of at most 1 MiB spells is a program: it is well typed, and each thing stands where its table
/// says.
pub fn every_program_is_one()
    ensures law { EveryProgramIsOne }
{}
