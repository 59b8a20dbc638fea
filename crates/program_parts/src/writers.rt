//! Who writes outside action blocks.
ghost use Rattle.std.specs.Prelude.{◌≡◌, ◌+◌, ◌++◌, ◌<◌, ◌^◌, map, IfOk, OnOk, option_copied};
ghost use Rattle.std.specs.Option.{option_to_list};
ghost use Rattle.call_reach.specs.Reaching.{is_marked};
ghost use Rattle.swift_core.specs.Writers.{AreWriters};
ghost use Rattle.source_parts.specs.Parts.{part_at, parts_at};
ghost use Rattle.part_rules.specs.Writers.{IsFirstWriter, is_body_of, member_line, member_lines, signature_of};
ghost use Rattle.program_parts.specs.Marks.{AreMarks, IsFirst, IsFirstLine, calls_of, conduct_of, is_writer, number_of, writes_of};

use call_reach::{Conduct, reaching};
use core_uses::{member_calls, member_writes};
use source_parts::PartRef;
use std::alloc::{AllocError, Global};
use sv_items::Items;
use swift_core::{CodeId, CoreMember, Signature, SignatureForm, Table};

/// The numbers of pieces of code.
fn numbers(alloc: Global, calls: &[CodeId]) -> Result<Items<usize>, AllocError>
    ensures value { IfOk result (λ ns. ns ≡ map number_of calls.now) }
{
    let mut out = Items::new(alloc);
    for call in calls {
        out.push(call.number)?;
    }
    Ok(out)
}

/// Whether a member writes outside action blocks.
#[tactic(auto, unfolding(crate::specs::Marks::writes_of))]
fn does_write(alloc: Global, member: &CoreMember) -> Result<bool, AllocError>
    ensures value { IfOk result (λ b. b ≡ writes_of member.now) }
{
    member_writes(alloc, member)
}

/// The numbers of the code that a member runs outside action blocks.
#[tactic(auto, unfolding(crate::specs::Marks::calls_of))]
fn numbers_called(alloc: Global, member: &CoreMember) -> Result<Items<usize>, AllocError>
    ensures value { IfOk result (λ ns. ns ≡ calls_of member.now) }
{
    let calls = member_calls(alloc, member)?;
    numbers(alloc, calls.as_slice())
}

/// What a member does.
fn conduct(alloc: Global, member: &CoreMember) -> Result<Conduct, AllocError>
    ensures value { IfOk result (λ c. c ≡ conduct_of member.now) }
{
    let writes = does_write(alloc, member)?;
    let calls = numbers_called(alloc, member)?;
    Ok(Conduct { writes, calls })
}

/// What each member does.
fn conducts(alloc: Global, members: &[CoreMember]) -> Result<Items<Conduct>, AllocError>
    ensures value { IfOk result (λ cs. cs ≡ map conduct_of members.now) }
{
    let mut out = Items::new(alloc);
    for member in members {
        out.push(conduct(alloc, member)?)?;
    }
    Ok(out)
}

/// What a member of the table is, by its number.
#[tactic(auto, unfolding(type_base::specs::Claims::and_then))]
fn signature_of(table: &Table, number: usize) -> Option<&Signature>
    ensures value { option_copied result ≡ signature_of table.now number }
{
    let place = table.members.get(number)?;
    let owner = table.declarations.get(place.declaration? as usize)?;
    owner.members.get(place.at as usize)
}

/// Whether a member is a builder or a computed property.
fn is_body(signature: Option<&Signature>) -> bool
    ensures value { result ≡ is_body_of (option_copied signature.entry) }
{
    match signature {
        Some(signature) => match &signature.form {
            SignatureForm::Computed(_) => true,
            SignatureForm::BuilderProperty => true,
            SignatureForm::BuilderFunction(_) => true,
            _ => false,
        },
        None => false,
    }
}

/// The line of a part that is a member of the table.
fn member_line(part: PartRef<'_>) -> Option<u32>
    ensures value { result ≡ member_line (part_at part.entry) }
{
    match part {
        PartRef::Declaration(_) => None,
        PartRef::Member(member) => Some(member.span.line),
        PartRef::Case(case) => Some(case.span.line),
        PartRef::Entry(entry) => Some(entry.span.line),
    }
}

/// Adds the line of a part that is a member of the table.
fn push_line(lines: &mut Vec<u32>, part: PartRef<'_>) -> Result<(), AllocError>
    ensures added { OnOk result (lines.new.items ≡ lines.old.items ++ option_to_list (member_line (part_at part.entry))) }
{
    match member_line(part) {
        Some(line) => {
            lines.push(line)?;
            Ok(())
        }
        None => Ok(()),
    }
}

/// The lines of all members of the table, in order.
#[tactic(auto, using(crate::proofs::Lines::lines_turn, crate::proofs::Lines::lines_start))]
fn member_lines(alloc: Global, parts: &[PartRef<'_>]) -> Result<Vec<u32>, AllocError>
    ensures value { IfOk result (λ v. v.items ≡ member_lines (parts_at parts.now)) }
{
    let mut lines = Vec::new(alloc);
    for part in parts {
        push_line(&mut lines, *part)?;
    }
    Ok(lines)
}

fn is_marked(marks: &[bool], at: usize) -> bool
    ensures value { result ≡ is_marked marks.now at }
{
    match marks.get(at) {
        Some(mark) => *mark,
        None => false,
    }
}

/// Whether a member is a builder or a computed property that reaches a write.
fn is_writer(table: &Table, marks: &[bool], number: usize) -> bool
    requires { number + 1 < 2 ^ 64 }
    ensures value { result ≡ is_writer table.now marks.now number }
{
    is_body(signature_of(table, number)) && is_marked(marks, number + 1)
}

/// The first writer among so many members.
fn first_writer(table: &Table, marks: &[bool], count: usize) -> Option<usize>
    ensures first { IsFirst result (is_writer table.now marks.now) count }
{
    for number in 0..count {
        if is_writer(table, marks, number) {
            return Some(number);
        }
    }
    None
}

/// The line of the first writer, by the marks of those that reach a write.
#[tactic(auto, unfolding(crate::specs::Marks::IsFirstLine))]
fn line_of_writer(table: &Table, marks: &[bool], lines: &[u32]) -> Option<u32>
    ensures first { IsFirstLine result (is_writer table.now marks.now) lines.now }
{
    match first_writer(table, marks, lines.len()) {
        Some(at) => Some(lines[at]),
        None => None,
    }
}

/// Which members reach a write: a mark for each.
fn marks_of(alloc: Global, members: &[CoreMember]) -> Result<Vec<bool>, AllocError>
    ensures marks { IfOk result (λ v. AreMarks members.now v.items) }
{
    let conducts = conducts(alloc, members)?;
    let marks = reaching(alloc, conducts.as_slice())?;
    Ok(marks)
}

/// A mark for each member that reaches a write of a state slot or through a binding outside action blocks.
#[tactic(auto, using(crate::proofs::Firsts::writers_known))]
pub fn find_writers(alloc: Global, members: &Items<CoreMember>) -> Result<Items<bool>, AllocError>
    ensures writers { IfOk result (λ ws. AreWriters members.now ws) }
{
    let marks = marks_of(alloc, members.as_slice())?;
    Ok(Items::from_vec(marks))
}

/// The line of the first builder or computed property, in text order, that reaches a write of a state slot or through a
/// binding outside action blocks. The members are those of the program: the default of the built-in environment key, and
/// then the members of the table.
#[tactic(auto, using(crate::proofs::Firsts::writer_known))]
pub fn find_writer(
    alloc: Global,
    table: &Table,
    members: &[CoreMember],
    parts: &[PartRef<'_>],
) -> Result<Option<u32>, AllocError>
    ensures first { IfOk result (λ o. IsFirstWriter o table.now members.now (member_lines (parts_at parts.now))) }
{
    let marks = marks_of(alloc, members)?;
    let lines = member_lines(alloc, parts)?;
    Ok(line_of_writer(table, &marks, &lines))
}
