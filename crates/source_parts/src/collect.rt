ghost use Rattle.std.specs.Prelude.{◌≡◌, ◌++◌, IfOk, OnOk};
ghost use Rattle.std.specs.List.{flat_map};
ghost use Rattle.source_parts.specs.Parts.{member_part, case_part, entry_part, item_parts, inner_parts, piece_parts, parts_of, parts_at};

use crate::part_ref::PartRef;
use std::alloc::{AllocError, Global};
use swift_ast::{CaseName, Entry, EnumItem, Member, Piece, PieceForm, Source, StructBody};

#[tactic(auto, using(crate::proofs::Groups::one_more))]
fn push_members<'s>(out: &mut Vec<PartRef<'s>>, members: &'s [Member]) -> Result<(), AllocError>
    ensures added { OnOk result (parts_at out.new.items ≡ parts_at out.old.items ++ flat_map member_part members.now) }
{
    for member in members {
        out.push(PartRef::Member(member))?;
    }
    Ok(())
}

#[tactic(auto, using(crate::proofs::Groups::one_more))]
fn push_cases<'s>(out: &mut Vec<PartRef<'s>>, cases: &'s [CaseName]) -> Result<(), AllocError>
    ensures added { OnOk result (parts_at out.new.items ≡ parts_at out.old.items ++ flat_map case_part cases.now) }
{
    for case in cases {
        out.push(PartRef::Case(case))?;
    }
    Ok(())
}

fn push_item<'s>(out: &mut Vec<PartRef<'s>>, item: &'s EnumItem) -> Result<(), AllocError>
    ensures added { OnOk result (parts_at out.new.items ≡ parts_at out.old.items ++ item_parts item.now) }
{
    match item {
        EnumItem::Cases(cases) => push_cases(out, cases.as_slice()),
        EnumItem::Member(member) => {
            out.push(PartRef::Member(member))?;
            Ok(())
        }
    }
}

#[tactic(auto, using(crate::proofs::Groups::one_more))]
fn push_items<'s>(out: &mut Vec<PartRef<'s>>, items: &'s [EnumItem]) -> Result<(), AllocError>
    ensures added { OnOk result (parts_at out.new.items ≡ parts_at out.old.items ++ flat_map item_parts items.now) }
{
    for item in items {
        push_item(out, item)?;
    }
    Ok(())
}

#[tactic(auto, using(crate::proofs::Groups::one_more))]
fn push_entries<'s>(out: &mut Vec<PartRef<'s>>, entries: &'s [Entry]) -> Result<(), AllocError>
    ensures added { OnOk result (parts_at out.new.items ≡ parts_at out.old.items ++ flat_map entry_part entries.now) }
{
    for entry in entries {
        out.push(PartRef::Entry(entry))?;
    }
    Ok(())
}

/// Adds what stands in a piece.
fn push_inner<'s>(out: &mut Vec<PartRef<'s>>, form: &'s PieceForm) -> Result<(), AllocError>
    ensures added { OnOk result (parts_at out.new.items ≡ parts_at out.old.items ++ inner_parts form.now) }
{
    match form {
        PieceForm::Struct(piece) => match &piece.body {
            StructBody::Members(members) => push_members(out, members.as_slice()),
            StructBody::LeftAside => Ok(()),
        },
        PieceForm::Enum(piece) => push_items(out, piece.items.as_slice()),
        PieceForm::Environment(entries) => push_entries(out, entries.as_slice()),
        PieceForm::Import(_) | PieceForm::Preview(_) => Ok(()),
    }
}

/// Adds a piece as a whole, and then what stands in it.
#[tactic(auto, using(crate::proofs::Groups::whole_piece))]
fn push_piece<'s>(out: &mut Vec<PartRef<'s>>, piece: &'s Piece) -> Result<(), AllocError>
    ensures added { OnOk result (parts_at out.new.items ≡ parts_at out.old.items ++ piece_parts piece.now) }
{
    out.push(PartRef::Declaration(piece))?;
    push_inner(out, &piece.form)
}

#[tactic(auto, using(crate::proofs::Groups::one_more))]
fn push_pieces<'s>(out: &mut Vec<PartRef<'s>>, pieces: &'s [Piece]) -> Result<(), AllocError>
    ensures added { OnOk result (parts_at out.new.items ≡ parts_at out.old.items ++ flat_map piece_parts pieces.now) }
{
    for piece in pieces {
        push_piece(out, piece)?;
    }
    Ok(())
}

/// The parts of a source file in text order: each declaration as a whole, and then its members and cases, and the
/// environment keys.
#[tactic(auto, unfolding(crate::specs::Parts::parts_of))]
pub fn parts(alloc: Global, source: &Source) -> Result<Vec<PartRef<'_>>, AllocError>
    ensures parts { IfOk result (λ v. parts_at v.items ≡ parts_of source.now) }
{
    let mut out = Vec::new(alloc);
    push_pieces(&mut out, source.pieces.as_slice())?;
    Ok(out)
}
