//! The check of each part, in text order.
ghost use Rattle.std.specs.Prelude.{◌≡◌, [], ◌∷◌};
ghost use Rattle.source_parts.specs.Parts.{Part, part_at, parts_at};
ghost use Rattle.member_rules.specs.Members as rule;
ghost use Rattle.member_rules.specs.Shapes as shape;
ghost use Rattle.program_parts.specs.Answers.{Decided};
ghost use Rattle.part_rules.specs.Checks.{check_from};
ghost use Rattle.part_rules.specs.Typed.{fits};
ghost use Rattle.program_parts.specs.Founds.{Adds, Finds};

use member_forms::declaration_fits;
use source_parts::PartRef;
use std::alloc::Global;
use sv_items::Items;
use swift_ast::{CaseName, Entry, Member, Piece};
use swift_core::{CoreMember, Table};
use swift_lex::Word;
use type_check::{MemberFault, check_entry, check_member_at};

/// Whether a name is one: `_` names nothing.
fn names_something(name: &Word) -> bool
    ensures value { result ≡ rule.names_something name.now }
{
    !name.is(b"_")
}

fn without_code(alloc: Global) -> CoreMember
    ensures value { result ≡ shape.without_code }
{
    CoreMember {
        code: None,
        blocks: Items::new(alloc),
    }
}

/// Checks a member, and adds its core.
#[tactic(auto, unfolding(part_rules::specs::Checks::check_from, part_rules::specs::Checks::find_member, type_base::specs::Claims::and_then))]
fn add_member(
    alloc: Global,
    table: &Table,
    cores: &mut Items<CoreMember>,
    member: &Member,
) -> Result<(), MemberFault>
    ensures added { Adds result cores.new (check_from table.now cores.old (Part.a_member member.now ∷ [])) }
{
    let line = member.span.line;
    let Some(place) = table.members.get(cores.len()) else {
        return Err(MemberFault::NotTyped { line });
    };
    let core = check_member_at(alloc, table, *place, member)?;
    cores.push(core)?;
    Ok(())
}

/// Checks a case of an enum, and adds its core.
#[tactic(auto, unfolding(part_rules::specs::Checks::check_from, part_rules::specs::Checks::find_member, type_base::specs::Claims::and_then))]
fn add_case(
    alloc: Global,
    table: &Table,
    cores: &mut Items<CoreMember>,
    case: &CaseName,
) -> Result<(), MemberFault>
    ensures added { Adds result cores.new (check_from table.now cores.old (Part.a_case case.now ∷ [])) }
{
    let line = case.span.line;
    let Some(_place) = table.members.get(cores.len()) else {
        return Err(MemberFault::NotTyped { line });
    };
    if !names_something(&case.name) {
        return Err(MemberFault::NotTyped { line });
    }
    cores.push(without_code(alloc))?;
    Ok(())
}

/// Checks an environment key, and adds the core of its default.
#[tactic(auto, unfolding(part_rules::specs::Checks::check_from, part_rules::specs::Checks::find_member, type_base::specs::Claims::and_then))]
fn add_entry(
    alloc: Global,
    table: &Table,
    cores: &mut Items<CoreMember>,
    entry: &Entry,
) -> Result<(), MemberFault>
    ensures added { Adds result cores.new (check_from table.now cores.old (Part.an_entry entry.now ∷ [])) }
{
    let line = entry.span.line;
    let Some(place) = table.members.get(cores.len()) else {
        return Err(MemberFault::NotTyped { line });
    };
    let core = check_entry(alloc, table, *place, entry)?;
    cores.push(core)?;
    Ok(())
}

/// Whether a declaration as a whole fits its kind.
#[tactic(auto, unfolding(part_rules::specs::Typed::fits))]
fn fits(piece: &Piece) -> bool
    ensures value { result ≡ fits piece.now }
{
    declaration_fits(piece)
}

/// Checks a part, and adds its core where it is a member, a case or an environment key.
#[tactic(auto, unfolding(part_rules::specs::Checks::check_from))]
fn add_part(
    alloc: Global,
    table: &Table,
    cores: &mut Items<CoreMember>,
    part: PartRef<'_>,
) -> Result<(), MemberFault>
    ensures added { Adds result cores.new (check_from table.now cores.old (part_at part.entry ∷ [])) }
{
    match part {
        PartRef::Declaration(piece) => {
            if fits(piece) {
                Ok(())
            } else {
                Err(MemberFault::NotTyped {
                    line: piece.span.line,
                })
            }
        }
        PartRef::Member(member) => add_member(alloc, table, cores, member),
        PartRef::Case(case) => add_case(alloc, table, cores, case),
        PartRef::Entry(entry) => add_entry(alloc, table, cores, entry),
    }
}

/// Checks the parts one after another.
#[tactic(auto, using(crate::proofs::Steps::part_turn, crate::proofs::Steps::part_refused, crate::proofs::Steps::parts_end))]
fn add_parts(
    alloc: Global,
    table: &Table,
    cores: &mut Items<CoreMember>,
    parts: &[PartRef<'_>],
) -> Result<(), MemberFault>
    ensures added { Adds result cores.new (check_from table.now cores.old (parts_at parts.now)) }
{
    for part in parts {
        match add_part(alloc, table, cores, *part) {
            Ok(()) => {}
            Err(MemberFault::NotTyped { line }) => return Err(MemberFault::NotTyped { line }),
            Err(MemberFault::OutOfMemory) => return Err(MemberFault::OutOfMemory),
        }
    }
    Ok(())
}

/// The cores of the members, cases and environment keys among the parts, in text order, or the line of the first part
/// that the typing rules refuse.
#[tactic(auto, using(crate::proofs::Decides::decided_ok, crate::proofs::Decides::decided_err))]
pub fn check_parts(
    alloc: Global,
    table: &Table,
    parts: &[PartRef<'_>],
) -> Result<Items<CoreMember>, MemberFault>
    ensures found { Finds result (check_from table.now [] (parts_at parts.now)) }
    ensures typed { Decided result table.now (parts_at parts.now) }
{
    let mut cores = Items::new(alloc);
    match add_parts(alloc, table, &mut cores, parts) {
        Ok(()) => Ok(cores),
        Err(MemberFault::NotTyped { line }) => Err(MemberFault::NotTyped { line }),
        Err(MemberFault::OutOfMemory) => Err(MemberFault::OutOfMemory),
    }
}
