ghost use Rattle.part_laws.specs.Programs.{SoundIsProgram};

/// A law: a table of a source file in which nothing is declared twice, whose parts have cores, is that of a program.
pub fn sound_tables_are_programs()
    ensures law { SoundIsProgram }
{}
