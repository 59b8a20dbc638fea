//! What the body of a unit means, which is the app, a custom view or a preference reader: its description and its reads, or its
//! trap, as one tree of questions in the words of `core_means`. And the law on reads for bodies.
#![tactic(auto)]

ghost use Rattle.body_means.specs.Law.{HandlersAskNothing, OtherValueOtherReads, SameReadsSameDescription};

/// A body that gave a description gives the same after the same reads, at its path, wherever each of its reads has the same value.
/// And where a read has another value, or none, a body that gives a description there has other reads.
pub fn bodies_depend_on_reads()
    ensures same { SameReadsSameDescription }
    ensures other { OtherValueOtherReads }
{}

/// What an action block looks up is no read of the body that makes it: to keep the locals that it uses is to look up nothing.
pub fn handlers_ask_nothing()
    ensures nothing { HandlersAskNothing }
{}
