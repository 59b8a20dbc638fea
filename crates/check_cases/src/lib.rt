//! Tables of source files, and what the check says of them.
#![tactic(auto)]

#[cfg(test)]
mod files;
#[cfg(test)]
mod tests;
