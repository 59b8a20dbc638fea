//! Which locals the terms of a builder alter, and runs of a preference reader beside runs that have what its captured locals hold.
#![tactic(auto)]
