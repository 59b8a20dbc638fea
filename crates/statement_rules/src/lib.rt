//! The rule of chains of postfix parts that stand as statements, the search of it, and that they agree.
#![tactic(auto)]
