//! Laws on the types of other crates that several crates here need. They stand in specs/, and no code goes with them.
#![tactic(auto)]
