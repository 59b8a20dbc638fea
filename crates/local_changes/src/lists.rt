ghost use Rattle.std.specs.Prelude.{◌≡◌, ◌++◌, OnOk};
ghost use Rattle.std.specs.List.{flat_map};
ghost use Rattle.std.specs.Option.{option_copied};
ghost use Rattle.swift_core.specs.Alters.{condition_alters, core_alters, filling_alters, optional_alters, over_alters};

use crate::terms::{of_core, of_cores, of_fillings};
use std::alloc::AllocError;
use sv_items::Items;
use swift_core::{Condition, Core, Filling, Over};

/// Adds what the terms alter, one after another.
pub fn of_all_cores(terms: &[Core], out: &mut Items<usize>) -> Result<(), AllocError>
    ensures ok { OnOk result (out.new ≡ out.old ++ flat_map core_alters terms.now) }
{
    of_cores(terms, out)
}

/// Adds what the fillings alter, one after another.
pub fn of_all_fillings(fillings: &[Filling], out: &mut Items<usize>) -> Result<(), AllocError>
    ensures ok { OnOk result (out.new ≡ out.old ++ flat_map filling_alters fillings.now) }
{
    of_fillings(fillings, out)
}

/// Adds what the conditions alter.
pub fn of_conditions(conditions: &[Condition], out: &mut Items<usize>) -> Result<(), AllocError>
    ensures ok { OnOk result (out.new ≡ out.old ++ flat_map condition_alters conditions.now) }
{
    for condition in conditions {
        match condition {
            Condition::Test(term) => of_core(term, out)?,
            Condition::Bind(term) => of_core(term, out)?,
        }
    }
    Ok(())
}

/// Adds what a range or a list alters.
pub fn of_over(over: &Over, out: &mut Items<usize>) -> Result<(), AllocError>
    ensures ok { OnOk result (out.new ≡ out.old ++ over_alters over.now) }
{
    match over {
        Over::UpTo(first, last) => {
            of_core(first, out)?;
            of_core(last, out)
        }
        Over::Through(first, last) => {
            of_core(first, out)?;
            of_core(last, out)
        }
        Over::Indices(term) => of_core(term, out),
        Over::List(term) => of_core(term, out),
    }
}

/// Adds what the term alters, where there is one.
pub fn of_optional(term: Option<&Core>, out: &mut Items<usize>) -> Result<(), AllocError>
    ensures ok { OnOk result (out.new ≡ out.old ++ optional_alters (option_copied term.entry)) }
{
    match term {
        None => Ok(()),
        Some(term) => of_core(term, out),
    }
}

/// Adds what the arguments that are given alter.
pub fn of_arguments(arguments: &[Option<Core>], out: &mut Items<usize>) -> Result<(), AllocError>
    ensures ok { OnOk result (out.new ≡ out.old ++ flat_map optional_alters arguments.now) }
{
    for argument in arguments {
        match argument {
            None => {}
            Some(term) => of_core(term, out)?,
        }
    }
    Ok(())
}
