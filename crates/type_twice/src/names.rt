ghost use Rattle.std.specs.Prelude.{◌≡◌, ◌++◌, ◌∷◌, [], map, IfOk, OnOk};
ghost use Rattle.std.specs.List.{flat_map};
ghost use Rattle.type_twice.specs.Twice as spec;

use member_forms::member_name;
use std::alloc::{AllocError, Global};
use sv_items::Items;
use swift_ast::{CaseName, Entry, EnumItem, Member, Piece, PieceForm, StructBody};
use swift_lex::Word;

/// A name that is declared, and the line of what declares it.
#[derive(Drop)]
pub struct Named {
    pub name: Word,
    pub line: u32,
}

fn make_named(alloc: Global, name: &Word, line: u32) -> Result<Named, AllocError>
    ensures { IfOk result (λ n. n ≡ spec.made_named name.now line) }
{
    Ok(Named {
        name: name.copy(alloc)?,
        line,
    })
}

fn add_member(alloc: Global, out: &mut Items<Named>, member: &Member) -> Result<(), AllocError>
    ensures ok { OnOk result (out.new ≡ out.old ++ spec.named_member member.now ∷ []) }
{
    out.push(make_named(alloc, member_name(member), member.span.line)?)
}

fn add_members(alloc: Global, out: &mut Items<Named>, members: &[Member]) -> Result<(), AllocError>
    ensures ok { OnOk result (out.new ≡ out.old ++ map spec.named_member members.now) }
{
    for member in members {
        add_member(alloc, out, member)?;
    }
    Ok(())
}

fn add_cases(alloc: Global, out: &mut Items<Named>, cases: &[CaseName]) -> Result<(), AllocError>
    ensures ok { OnOk result (out.new ≡ out.old ++ map spec.named_case cases.now) }
{
    for case in cases {
        out.push(make_named(alloc, &case.name, case.span.line)?)?;
    }
    Ok(())
}

fn add_item(alloc: Global, out: &mut Items<Named>, item: &EnumItem) -> Result<(), AllocError>
    ensures ok { OnOk result (out.new ≡ out.old ++ spec.item_names item.now) }
{
    match item {
        EnumItem::Cases(cases) => add_cases(alloc, out, cases.as_slice()),
        EnumItem::Member(member) => add_member(alloc, out, member),
    }
}

fn add_items(alloc: Global, out: &mut Items<Named>, items: &[EnumItem]) -> Result<(), AllocError>
    ensures ok { OnOk result (out.new ≡ out.old ++ flat_map spec.item_names items.now) }
{
    for item in items {
        add_item(alloc, out, item)?;
    }
    Ok(())
}

/// The names of the members of a piece.
pub fn member_names(alloc: Global, piece: &Piece) -> Result<Items<Named>, AllocError>
    ensures { IfOk result (λ ns. ns ≡ spec.member_names piece.now) }
{
    let mut out = Items::new(alloc);
    match &piece.form {
        PieceForm::Struct(piece) => match &piece.body {
            StructBody::LeftAside => Ok(out),
            StructBody::Members(members) => {
                add_members(alloc, &mut out, members.as_slice())?;
                Ok(out)
            }
        },
        PieceForm::Enum(piece) => {
            add_items(alloc, &mut out, piece.items.as_slice())?;
            Ok(out)
        }
        _ => Ok(out),
    }
}

fn add_entries(alloc: Global, out: &mut Items<Named>, entries: &[Entry]) -> Result<(), AllocError>
    ensures ok { OnOk result (out.new ≡ out.old ++ map spec.named_entry entries.now) }
{
    for entry in entries {
        out.push(make_named(alloc, &entry.name, entry.span.line)?)?;
    }
    Ok(())
}

/// The names of the keys of a piece.
pub fn key_names(alloc: Global, piece: &Piece) -> Result<Items<Named>, AllocError>
    ensures { IfOk result (λ ns. ns ≡ spec.key_names piece.now) }
{
    let mut out = Items::new(alloc);
    match &piece.form {
        PieceForm::Environment(entries) => {
            add_entries(alloc, &mut out, entries.as_slice())?;
            Ok(out)
        }
        _ => Ok(out),
    }
}
