ghost use Rattle.place_tests.specs.Demands.{AgreeingIsAnswered};
ghost use Rattle.place_tests.specs.Walks.{CandidatesAreAll, WalksAreRight};

/// A law: there are types of slots that answer all that is asked exactly where each slot has one type that fits the cells
/// and all that is asked of it.
pub fn answered_by_agreeing()
    ensures law { AgreeingIsAnswered }
{}

/// A law: walking along hops is what the rules say of them.
pub fn walks_are_right()
    ensures law { WalksAreRight }
{}

/// A law: hops lead to a type from few others.
pub fn candidates_are_all()
    ensures law { CandidatesAreAll }
{}
