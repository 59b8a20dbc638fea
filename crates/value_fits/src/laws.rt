ghost use Rattle.value_fits.specs.Cells.{CellsRead, CellsWritten};
ghost use Rattle.value_fits.specs.Changes.{ArgumentsTyped, ChangesFit};
ghost use Rattle.value_fits.specs.Fields.{DataPartsAre, FieldFits, FieldsAre, ProgramsStand, StructMadeFits};
ghost use Rattle.value_fits.specs.Forms.{IndexesAre, ListsAre, OptionalsAre, PlainValuesFit, TruthsAre};
ghost use Rattle.value_fits.specs.Lists.{ListMadeFits, MadeFits};
ghost use Rattle.value_fits.specs.Operators.{BinaryFits, BoundsFit, ContainsFits, ElementFits, FirstIndexFits, ForceFits, InterpolatedFits, PromotedFits, PropertyFits, RepeatFits, UnaryFits};
ghost use Rattle.value_fits.specs.Patterns.{CasesMatch};
ghost use Rattle.value_fits.specs.Reached.{HopsJoin, PartFits, ReadFits, RenewedFits, WithPartFits};

/// Truth values, numbers, strings and optionals have their types, and a value of a type has the form of the type's values.
pub fn values_have_forms()
    ensures plain { PlainValuesFit }
    ensures truths { TruthsAre }
    ensures indexes { IndexesAre }
    ensures optionals { OptionalsAre }
    ensures lists { ListsAre }
{}

/// A value that is made has its type, or is too heavy: a list has values of one type, a struct one for each stored property.
pub fn made_values_fit()
    ensures value { MadeFits }
    ensures list { ListMadeFits }
    ensures structs { StructMadeFits }
{}

/// In a program each stored property of a data struct is a field of its values, of the property's type.
pub fn fields_fit()
    ensures programs { ProgramsStand }
    ensures parts { DataPartsAre }
    ensures there { FieldsAre }
    ensures answer { FieldFits }
{}

/// Operators and built-in calls answer of values of their types, or trap, and the answer has the type of the result.
pub fn operators_fit()
    ensures unary { UnaryFits }
    ensures force { ForceFits }
    ensures property { PropertyFits }
    ensures promoted { PromotedFits }
    ensures binary { BinaryFits }
    ensures element { ElementFits }
    ensures contains { ContainsFits }
    ensures first_index { FirstIndexFits }
    ensures repeated { RepeatFits }
    ensures bounds { BoundsFit }
    ensures interpolated { InterpolatedFits }
{}

/// So do the calls that change the value they stand on, which keeps its type.
pub fn changes_fit()
    ensures arguments { ArgumentsTyped }
    ensures change { ChangesFit }
{}

/// The part of a value at hops that fit its type has the type of the part, or an index is out of range. With a new part of
/// that type the value keeps its type.
pub fn hops_fit()
    ensures joined { HopsJoin }
    ensures part { PartFits }
    ensures read { ReadFits }
    ensures with_part { WithPartFits }
    ensures renewed { RenewedFits }
{}

/// Cases that cover a type have one that a value of the type matches.
pub fn cases_match()
    ensures law { CasesMatch }
{}

/// What is read at a place of a slot has the type of the part, or an index is out of range. A write of a value of that type
/// leaves each slot a value of its type.
pub fn cells_fit()
    ensures read { CellsRead }
    ensures written { CellsWritten }
{}
