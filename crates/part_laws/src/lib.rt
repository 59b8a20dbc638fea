//! What holds of the table and the cores of a source file whose parts are typed: they are those of a program.
#![tactic(auto)]

mod laws;

pub use laws::sound_tables_are_programs;
