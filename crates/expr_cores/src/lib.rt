//! What the rules of expressions relate is well typed.
#![tactic(auto)]
