//! What the rules of chains of postfix parts relate is well typed.
#![tactic(auto)]
