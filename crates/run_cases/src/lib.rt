//! Tables of terms, statements, bodies and action blocks of the language, and what each run of them gives.
#![tactic(auto)]

#[cfg(test)]
mod blocks;
#[cfg(test)]
mod bodies;
#[cfg(test)]
mod runs;
#[cfg(test)]
mod shown;
#[cfg(test)]
mod statements;
#[cfg(test)]
mod terms;
