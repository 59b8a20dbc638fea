ghost use Rattle.table_names.specs.Codes.{CodesStand, DefaultsStand, EnabledIsBool, MembersCounted};
ghost use Rattle.table_names.specs.Names.{DeclarationsFound, KeysFound, MembersFound};
ghost use Rattle.table_names.specs.Sources.{KeysWritten, MembersWritten};
ghost use Rattle.table_names.specs.Tables.{WrittenIs};

/// A law: the table of what is written is a table of the source file.
pub fn written_is_a_table()
    ensures law { WrittenIs }
{}

/// A law: a declaration is found by its name.
pub fn declarations_are_found()
    ensures law { DeclarationsFound }
{}

/// A law: a member is found by its name among those of its declaration.
pub fn members_are_found()
    ensures law { MembersFound }
{}

/// A law: an environment key is found by its name.
pub fn keys_are_found()
    ensures law { KeysFound }
{}

/// A law: the code of each member stands where the table says.
pub fn codes_stand()
    ensures law { CodesStand }
{}

/// A law: the table has a place for each member, case and key that is written.
pub fn members_are_counted()
    ensures law { MembersCounted }
{}

/// A law: each member of a declaration is written in the source file, at its place.
pub fn members_are_written()
    ensures law { MembersWritten }
{}

/// A law: each environment key but `isEnabled` is written in the source file, at its place.
pub fn keys_are_written()
    ensures law { KeysWritten }
{}

/// A law: the code of the default of each environment key stands where the table says.
pub fn defaults_stand()
    ensures law { DefaultsStand }
{}

/// A law: key 0 is a truth value.
pub fn enabled_is_a_bool()
    ensures law { EnabledIsBool }
{}
