ghost use Rattle.std.specs.Prelude.{◌≡◌, ◌||◌, false, map, length, IfOk, OnOk};
ghost use Rattle.known_rules.specs.Known as spec;
ghost use Rattle.known_types.specs.Rows as rows;

use crate::fill::fill_table;
use crate::open::{Open, opens};
use std::alloc::{AllocError, Global};
use sv_items::Items;
use swift_ast::Source;
use swift_core::{Table, Ty};
use type_base::{Fault, Scope, Stance};
use type_expr::check_value;
use type_table::{narrow, preferences};

fn owner_of(declaration: Option<usize>) -> Option<u32>
    ensures { result ≡ spec.owner_of declaration }
{
    match declaration {
        Some(declaration) => Some(narrow(declaration)),
        None => None,
    }
}

fn stance_of(declaration: Option<usize>) -> Stance
    ensures { result ≡ spec.stance_of declaration }
{
    match declaration {
        Some(_) => Stance::Initial,
        None => Stance::Outside,
    }
}

/// The type that the initial value has under the types that are known.
#[tactic(auto, unfolding(known_rules::specs::Known::found))]
fn found(alloc: Global, table: &Table, blank: &Open<'_>) -> Result<Option<Ty>, AllocError>
    ensures { IfOk result (λ t. t ≡ spec.found table.now (rows.open_of blank.now)) }
{
    let scope = Scope {
        table,
        owner: owner_of(blank.declaration),
        stance: stance_of(blank.declaration),
        locals: Items::new(alloc),
        floor: 0,
    };
    match check_value(alloc, &scope, None, blank.value) {
        Ok((_core, ty)) => Ok(Some(ty)),
        Err(Fault::NotTyped) => Ok(None),
        Err(Fault::OutOfMemory) => Err(AllocError),
    }
}

/// Gives a property or a key the type that its initial value has so far, if it has none. Tells whether anything changed.
#[tactic(auto, unfolding(known_rules::specs::Known::turn))]
fn turn(alloc: Global, table: &mut Table, blank: &Open<'_>) -> Result<bool, AllocError>
    ensures value { OnOk result (table.new ≡ spec.turn table.old (rows.open_of blank.now)) }
    ensures same { IfOk result (λ changed. changed ≡ false → table.new ≡ table.old) }
{
    match found(alloc, table, blank)? {
        Some(ty) => Ok(fill_table(alloc, table, blank.declaration, blank.at, ty)),
        None => Ok(false),
    }
}

fn either(first: bool, second: bool) -> bool
    ensures { result ≡ (first || second) }
{
    first || second
}

/// Each in turn from the first to the last.
#[tactic(auto, using(crate::proofs::Turns::forwards_turn, crate::proofs::Turns::forwards_end, crate::proofs::Turns::neither))]
fn forwards(alloc: Global, table: &mut Table, opens: &[Open<'_>]) -> Result<bool, AllocError>
    ensures value { OnOk result (table.new ≡ spec.forwards table.old (map rows.open_of opens.now)) }
    ensures same { IfOk result (λ changed. changed ≡ false → table.new ≡ table.old) }
{
    let mut changed = false;
    for open in opens {
        let more = turn(alloc, table, open)?;
        changed = either(changed, more);
    }
    Ok(changed)
}

/// Each in turn from the last to the first.
#[tactic(auto, using(crate::proofs::Turns::backwards_turn, crate::proofs::Turns::backwards_start, crate::proofs::Turns::neither))]
fn backwards(alloc: Global, table: &mut Table, opens: &[Open<'_>]) -> Result<bool, AllocError>
    ensures value { OnOk result (table.new ≡ spec.backwards table.old (map rows.open_of opens.now)) }
    ensures same { IfOk result (λ changed. changed ≡ false → table.new ≡ table.old) }
{
    let mut changed = false;
    let mut at = opens.len();
    while at > 0 {
        at -= 1;
        let more = turn(alloc, table, &opens[at])?;
        changed = either(changed, more);
    }
    Ok(changed)
}

/// A round, there and back. Tells whether anything changed.
#[tactic(auto, unfolding(known_rules::specs::Known::next))]
fn round(alloc: Global, table: &mut Table, opens: &[Open<'_>]) -> Result<bool, AllocError>
    ensures value { OnOk result (table.new ≡ spec.next (map rows.open_of opens.now) table.old) }
    ensures same { IfOk result (λ changed. changed ≡ false → table.new ≡ table.old) }
{
    if forwards(alloc, table, opens)? {
        backwards(alloc, table, opens)?;
        Ok(true)
    } else {
        backwards(alloc, table, opens)
    }
}

/// As many rounds as there are properties and keys. Where a round changes nothing, the others change nothing either.
#[tactic(auto, using(crate::proofs::Turns::still))]
fn rounds(alloc: Global, table: Table, opens: &[Open<'_>]) -> Result<Table, AllocError>
    ensures { IfOk result (λ t. t ≡ spec.rounds (map rows.open_of opens.now) (length opens.now) table) }
{
    let mut table = table;
    for _turn in 0..opens.len() {
        let changed = round(alloc, &mut table, opens)?;
        if !changed {
            return Ok(table);
        }
    }
    Ok(table)
}

/// The table with the types of the properties and environment keys that have no written type: each has the type of its
/// initial value, found in rounds from those that need no other. What leads back to itself has none.
#[tactic(auto, using(crate::proofs::Turns::as_many), unfolding(known_rules::specs::Known::completed))]
pub fn complete_table(alloc: Global, source: &Source, table: Table) -> Result<Table, AllocError>
    ensures completed { IfOk result (λ t. t ≡ spec.completed source.now table) }
{
    let opens = opens(alloc, source)?;
    let Table {
        declarations,
        environment,
        preferences: _,
        members,
        names,
        keys,
    } = rounds(alloc, table, opens.as_slice())?;
    let preferences = preferences(alloc, declarations.as_slice())?;
    Ok(Table {
        declarations,
        environment,
        preferences,
        members,
        names,
        keys,
    })
}
