//! Steps of a body that are right where its locals fit their types, with what a preference reader captured asked for: terms, places,
//! what blocks keep and readers capture, and nodes.
#![tactic(auto)]
