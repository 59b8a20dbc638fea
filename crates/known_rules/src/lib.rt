//! The types of properties and environment keys without a written type: what the completed table is. The rules stand in
//! specs.
#![tactic(auto)]

ghost use Rattle.known_rules.specs.Known.{Settles};

/// A law: after as many rounds as there are properties and keys without a written type, a round changes nothing.
pub fn rounds_settle()
    ensures settled { Settles }
{}
