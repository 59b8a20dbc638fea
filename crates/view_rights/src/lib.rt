//! Each item of a builder is right: view expressions, their modifiers, `ForEach`, uses of custom views, `if` and `switch`.
#![tactic(auto)]
