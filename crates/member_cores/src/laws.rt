ghost use Rattle.member_cores.specs.Laws.{DefaultsTyped, MembersTyped};

/// What a member of a declaration becomes is well typed as its signature says.
pub fn members_are_well_typed()
    ensures law { MembersTyped }
{}

/// The default of an environment key has the type of the key.
pub fn defaults_are_well_typed()
    ensures law { DefaultsTyped }
{}
