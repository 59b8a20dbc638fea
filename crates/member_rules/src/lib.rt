//! What the members of a declaration become: the rules, the searches for what they relate, and that both agree.
#![tactic(auto)]

ghost use Rattle.member_rules.specs.Laws.{OneCore, OneCoreAt, OneDefault};

/// The rules give a member of a declaration one core at most.
#[tactic(auto, using(crate::specs::Laws::one_core))]
pub fn one_core()
    ensures law { OneCore }
{}

/// The rules give what stands at a place of the table one core at most.
#[tactic(auto, using(crate::specs::Laws::one_core_at))]
pub fn one_core_at()
    ensures law { OneCoreAt }
{}

/// The rules give an environment key one default at most.
#[tactic(auto, using(crate::specs::Laws::one_default))]
pub fn one_default()
    ensures law { OneDefault }
{}
