ghost use Rattle.table_fits.specs.Fills.{CompletedIs};
ghost use Rattle.table_fits.specs.Fitting.{CompletedFits};
ghost use Rattle.table_fits.specs.Forms.{FormsStand};
ghost use Rattle.table_fits.specs.Named.{DeclarationsNamed};
ghost use Rattle.table_fits.specs.Starts.{StartsLaw};

/// A law: the table with the types of all initial values is a table of the source file.
pub fn completed_is_a_table()
    ensures law { CompletedIs }
{}

/// A law: the completed table fits: cases are those of their enums, and nil is an initial value of optionals alone.
pub fn completed_tables_fit()
    ensures law { CompletedFits }
{}

/// A law: a member that fits its declaration has a form that stands in the declaration's kind.
pub fn forms_stand()
    ensures law { FormsStand }
{}

/// A law: a property begins with what is written exactly where something is written.
pub fn members_start_as_written()
    ensures law { StartsLaw }
{}

/// A law: each declaration has a name that is not `_`.
pub fn declarations_are_named()
    ensures law { DeclarationsNamed }
{}
