//! Worlds that fit a context, and what it is that a meaning is right in them.
#![tactic(auto)]
