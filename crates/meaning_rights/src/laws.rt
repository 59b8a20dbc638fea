ghost use Rattle.meaning_rights.specs.Laws.{ActionsAreRight, ActionsKeepCells, EvaluationsAreRight, TermsHaveMeanings};

/// Where a world fits the context of a well typed term, the term has a meaning there, whatever number of forms may still be
/// entered: it gives a value of its type and leaves a world that fits, or traps, and asks nothing but what the frame has.
pub fn terms_have_meanings()
    ensures law { TermsHaveMeanings }
{}

/// Where the condition of an evaluation holds, the code has a value, or traps.
pub fn evaluations_are_right()
    ensures law { EvaluationsAreRight }
{}

/// Where the condition of the run of an action block holds, the block ends, or traps.
pub fn actions_are_right()
    ensures law { ActionsAreRight }
{}

/// The cells that such a run leaves, also at a trap, have the types that they had.
pub fn actions_keep_cells()
    ensures law { ActionsKeepCells }
{}
