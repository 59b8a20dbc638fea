ghost use Rattle.std.specs.Prelude.{◌≡◌, ◌++◌, length, map, IfOk, OnOk, if◌then◌else◌};
ghost use Rattle.type_table.specs.Along as along;
ghost use Rattle.type_table.specs.Heads as heads;
ghost use Rattle.type_table.specs.Tables as spec;

use crate::number::{after, narrow, next_if};
use std::alloc::{AllocError, Global};
use sv_items::Items;
use swift_ast::{CaseName, Entry, EnumItem, Member, Piece, PieceForm, StructBody};
use swift_core::MemberPlace;

/// Adds the places of the members of a declaration, by their first tokens.
#[tactic(auto, using(crate::proofs::Parts::places_more))]
fn add_members(
    out: &mut Items<MemberPlace>,
    declaration: u32,
    starts: &[usize],
) -> Result<(), AllocError>
    ensures ok { OnOk result (out.new ≡ out.old ++ spec.member_places declaration starts.now) }
{
    for (at, start) in starts.iter().enumerate() {
        out.push(MemberPlace {
            first: *start,
            declaration: Some(declaration),
            at: narrow(at),
        })?;
    }
    Ok(())
}

fn member_starts(alloc: Global, members: &[Member]) -> Result<Items<usize>, AllocError>
    ensures { IfOk result (λ s. s ≡ map spec.member_start members.now) }
{
    let mut out = Items::new(alloc);
    for member in members {
        out.push(member.span.first)?;
    }
    Ok(out)
}

fn add_case_starts(out: &mut Items<usize>, names: &[CaseName]) -> Result<(), AllocError>
    ensures ok { OnOk result (out.new ≡ out.old ++ map spec.case_start names.now) }
{
    for case in names {
        out.push(case.span.first)?;
    }
    Ok(())
}

fn add_item_starts(out: &mut Items<usize>, item: &EnumItem) -> Result<(), AllocError>
    ensures ok { OnOk result (out.new ≡ out.old ++ spec.item_starts item.now) }
{
    match item {
        EnumItem::Cases(names) => add_case_starts(out, names.as_slice()),
        EnumItem::Member(member) => out.push(member.span.first),
    }
}

#[tactic(auto, using(crate::proofs::Parts::starts_turn))]
fn enum_starts(alloc: Global, items: &[EnumItem]) -> Result<Items<usize>, AllocError>
    ensures { IfOk result (λ s. s ≡ spec.enum_starts items.now) }
{
    let mut out = Items::new(alloc);
    for item in items {
        add_item_starts(&mut out, item)?;
    }
    Ok(out)
}

/// Adds the places of the entries, where this is the number of the first key.
#[tactic(auto, using(crate::proofs::Parts::entry_places_more))]
fn add_entries(
    out: &mut Items<MemberPlace>,
    first: u32,
    entries: &[Entry],
) -> Result<(), AllocError>
    ensures ok { OnOk result (out.new ≡ out.old ++ spec.entry_places first entries.now) }
{
    for (at, entry) in entries.iter().enumerate() {
        out.push(MemberPlace {
            first: entry.span.first,
            declaration: None,
            at: after(first, at),
        })?;
    }
    Ok(())
}

/// Adds the places of what a piece declares.
fn add_places(
    alloc: Global,
    out: &mut Items<MemberPlace>,
    declaration: u32,
    key: u32,
    piece: &Piece,
) -> Result<(), AllocError>
    ensures ok { OnOk result (out.new ≡ out.old ++ spec.places_at declaration key piece.now.form) }
{
    match &piece.form {
        PieceForm::Struct(piece) => match &piece.body {
            StructBody::LeftAside => Ok(()),
            StructBody::Members(members) => {
                let starts = member_starts(alloc, members.as_slice())?;
                add_members(out, declaration, starts.as_slice())
            }
        },
        PieceForm::Enum(piece) => {
            let starts = enum_starts(alloc, piece.items.as_slice())?;
            add_members(out, declaration, starts.as_slice())
        }
        PieceForm::Environment(entries) => add_entries(out, key, entries.as_slice()),
        _ => Ok(()),
    }
}

/// Whether the piece is a declaration.
fn declares(piece: &Piece) -> bool
    ensures { result ≡ heads.declares piece.now }
{
    match &piece.form {
        PieceForm::Struct(piece) => match &piece.body {
            StructBody::LeftAside => false,
            StructBody::Members(_) => true,
        },
        PieceForm::Enum(_) => true,
        _ => false,
    }
}

fn entry_count(piece: &Piece) -> usize
    ensures { result ≡ spec.entry_count piece.now }
{
    match &piece.form {
        PieceForm::Environment(entries) => entries.len(),
        _ => 0,
    }
}

/// Where each member and each environment key stands, in text order.
#[tactic(auto, using(crate::proofs::Parts::pieces_turn, crate::proofs::Parts::place_turn, crate::proofs::Parts::first_key_turn))]
pub fn places(alloc: Global, pieces: &[Piece]) -> Result<Items<MemberPlace>, AllocError>
    ensures { IfOk result (λ ps. ps ≡ spec.places pieces.now) }
{
    let mut out = Items::new(alloc);
    let mut declaration = 0;
    let mut key = 1;
    for piece in pieces {
        add_places(alloc, &mut out, declaration, key, piece)?;
        declaration = next_if(declaration, declares(piece));
        key = after(key, entry_count(piece));
    }
    Ok(out)
}
