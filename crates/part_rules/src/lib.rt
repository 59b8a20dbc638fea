//! When the parts of a source file are typed, which is the first that is not, and which member is the first that writes in
//! its body.
#![tactic(auto)]

ghost use Rattle.part_rules.specs.Laws.{ChecksAreTyped, LinesAreFirst};

/// The checks of all parts find cores exactly where all parts are typed, and these cores.
#[tactic(auto, using(crate::specs::Laws::checks_are_typed))]
pub fn checks_are_typed()
    ensures law { ChecksAreTyped }
{}

/// They find a line exactly where the first part that is not typed begins in this line.
#[tactic(auto, using(crate::specs::Laws::lines_are_first))]
pub fn lines_are_first()
    ensures law { LinesAreFirst }
{}
