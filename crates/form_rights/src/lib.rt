//! Each form of expressions, calls, changes and conditions is right where the forms inside it are.
#![tactic(auto)]
