//! The public calls.
ghost use Rattle.std.specs.Prelude.{◌≡◌, Option, find, option_copied};
ghost use Rattle.swift_core.specs.declared.code.CoreMember as core;
ghost use Rattle.type_base.specs.Rules as rules;
ghost use Rattle.type_check.specs.Answers.{Answers, Decides};
ghost use Rattle.member_rules.specs.Members as rule;
ghost use Rattle.member_rules.specs.Search.{find_at, find_member, find_entry};

use crate::fault::MemberFault;
use crate::form::member_of;
use crate::properties::environment_type;
use crate::shapes::{inside, of_value};
use std::alloc::Global;
use swift_ast::{Entry, Member, MemberForm};
use swift_core::{CoreMember, MemberPlace, Table};
use swift_lex::Word;
use type_base::{Fault, Stance};
use type_expr::check_wanted;

/// Whether a name is one: `_` names nothing.
fn names_something(name: &Word) -> bool
    ensures value { result ≡ rule.names_something name.now }
{
    !name.is(b"_")
}

fn name_of(form: &MemberForm) -> &Word
    ensures value { result.now ≡ rule.name_of form.now }
{
    match form {
        MemberForm::Stored(_, name, _, _) => name,
        MemberForm::Computed(name, _, _) => name,
        MemberForm::Function(name, _, _, _) => name,
    }
}

/// The core of the member at this place.
#[tactic(auto, unfolding(type_base::specs::Claims::and_then, member_rules::specs::Search::find_at))]
fn check_at(
    alloc: Global,
    table: &Table,
    place: MemberPlace,
    form: &MemberForm,
) -> Result<CoreMember, Fault>
    ensures found { rules.Answers result (find_at table.now place form.now) }
{
    if !names_something(name_of(form)) {
        return Err(Fault::NotTyped);
    }
    let Some(number) = place.declaration else {
        return Err(Fault::NotTyped);
    };
    let Some(owner) = table.declarations.get(number as usize) else {
        return Err(Fault::NotTyped);
    };
    let Some(signature) = owner.members.get(place.at as usize) else {
        return Err(Fault::NotTyped);
    };
    member_of(
        alloc,
        table,
        Some(number),
        owner.kind,
        &signature.form,
        form,
    )
}

/// The same answer with the line of the member.
fn at_line(answer: Result<CoreMember, Fault>, line: u32) -> Result<CoreMember, MemberFault>
    ensures same { (found : Option core.CoreMember) → rules.Answers answer found → Answers result line found }
{
    match answer {
        Ok(member) => Ok(member),
        Err(Fault::NotTyped) => Err(MemberFault::NotTyped { line }),
        Err(Fault::OutOfMemory) => Err(MemberFault::OutOfMemory),
    }
}

/// The core of the member of a declaration that stands at this place of the table's members.
#[tactic(auto, using(crate::proofs::Decided::decided_at))]
pub fn check_member_at(
    alloc: Global,
    table: &Table,
    place: MemberPlace,
    member: &Member,
) -> Result<CoreMember, MemberFault>
    ensures found { Answers result member.now.span.line (find_at table.now place member.now.form) }
    ensures typed { Decides result member.now.span.line (rule.TypedAt table.now place member.now.form) }
{
    at_line(
        check_at(alloc, table, place, &member.form),
        member.span.line,
    )
}

/// The first place at which a member begins with this token.
fn place_at(places: &[MemberPlace], token: usize) -> Option<&MemberPlace>
    ensures value { option_copied result ≡ find (rule.begins token) places.now }
{
    places.iter().find(|place| place.first == token)
}

/// Where a member that begins with this token stands.
fn place_of(table: &Table, token: usize) -> Option<MemberPlace>
    ensures value { result ≡ rule.place_of table.now token }
{
    match place_at(table.members.as_slice(), token) {
        Some(place) => Some(*place),
        None => None,
    }
}

/// The core of a member of a declaration of this table.
#[tactic(auto, unfolding(member_rules::specs::Members::TypedMember))]
pub fn check_member(
    alloc: Global,
    table: &Table,
    member: &Member,
) -> Result<CoreMember, MemberFault>
    ensures typed { Decides result member.now.span.line (rule.TypedMember table.now member.now) }
{
    match place_of(table, member.span.first) {
        Some(place) => check_member_at(alloc, table, place, member),
        None => Err(MemberFault::NotTyped {
            line: member.span.line,
        }),
    }
}

/// The core of a default.
#[tactic(auto, unfolding(type_base::specs::Claims::and_then, member_rules::specs::Search::find_entry))]
fn default_of(
    alloc: Global,
    table: &Table,
    place: MemberPlace,
    entry: &Entry,
) -> Result<CoreMember, Fault>
    ensures found { rules.Answers result (find_entry table.now place entry.now) }
{
    if !names_something(&entry.name) {
        return Err(Fault::NotTyped);
    }
    let Some(ty) = environment_type(table, place.at) else {
        return Err(Fault::NotTyped);
    };
    let scope = inside(alloc, table, None, Stance::Outside);
    let core = check_wanted(alloc, &scope, ty, &entry.value)?;
    Ok(of_value(alloc, core))
}

/// The core of the environment key that stands at this place of the table's members.
#[tactic(auto, using(crate::proofs::Decided::decided_entry))]
pub fn check_entry(
    alloc: Global,
    table: &Table,
    place: MemberPlace,
    entry: &Entry,
) -> Result<CoreMember, MemberFault>
    ensures found { Answers result entry.now.span.line (find_entry table.now place entry.now) }
    ensures typed { Decides result entry.now.span.line (rule.TypedEntry table.now place entry.now) }
{
    at_line(default_of(alloc, table, place, entry), entry.span.line)
}
