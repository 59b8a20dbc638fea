ghost use Rattle.case_rules.specs.Laws.{ConditionsFound, OversFound, SubjectsFound};

/// The search finds exactly what the rule of conditions relates.
pub fn conditions_are_found()
    ensures law { ConditionsFound }
{}

/// The search finds exactly what the rule of what a loop goes over relates.
pub fn overs_are_found()
    ensures law { OversFound }
{}

/// The search finds exactly what the rule of the subject and the labels of a `switch` relates.
pub fn subjects_are_found()
    ensures law { SubjectsFound }
{}
