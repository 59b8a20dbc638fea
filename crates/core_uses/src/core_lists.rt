ghost use Rattle.std.specs.Prelude.{◌≡◌, ◌++◌, OnOk};
ghost use Rattle.std.specs.List.{flat_map};
ghost use Rattle.swift_core.specs.Mentions.{core_mentions, filling_mentions};

use crate::core_mentions::{of_cores, of_fillings};
use std::alloc::AllocError;
use sv_items::Items;
use swift_core::{Core, Filling, Mention};

/// Adds what the terms mention, one after another.
pub fn of_all_cores(terms: &[Core], out: &mut Items<Mention>) -> Result<(), AllocError>
    ensures ok { OnOk result (out.new ≡ out.old ++ flat_map core_mentions terms.now) }
{
    of_cores(terms, out)
}

/// Adds what the fillings mention, one after another.
pub fn of_all_fillings(fillings: &[Filling], out: &mut Items<Mention>) -> Result<(), AllocError>
    ensures ok { OnOk result (out.new ≡ out.old ++ flat_map filling_mentions fillings.now) }
{
    of_fillings(fillings, out)
}
