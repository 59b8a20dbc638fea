ghost use Rattle.std.specs.Prelude.{◌≡◌, ◌+◌, ◌++◌, ◌≤◌, length, map, option_copied, IfOk, OnOk, if◌then◌else◌};
ghost use Rattle.known_rules.specs.Known as spec;
ghost use Rattle.known_types.specs.Rows as rows;
ghost use Rattle.type_table.specs.Along as along;
ghost use Rattle.type_table.specs.Heads as heads;

use std::alloc::{AllocError, Global};
use sv_items::Items;
use swift_ast::{Entry, Expr, Member, MemberForm, Piece, PieceForm, Source, StructBody};
use type_table::after;

/// A property or an environment key without a written type, by its place, and its initial value.
#[derive(Drop)]
pub struct Open<'s> {
    /// The number of the declaration, or None for an environment key.
    pub declaration: Option<usize>,
    pub at: usize,
    pub value: &'s Expr,
}

/// The initial value of a property without a written type.
fn member_value(member: &Member) -> Option<&Expr>
    ensures { option_copied result ≡ spec.member_value member.now }
{
    match &member.form {
        MemberForm::Stored(_, _, None, Some(value)) => Some(value),
        _ => None,
    }
}

/// Adds a property or a key, if it has a value.
fn add<'s>(
    out: &mut Items<Open<'s>>,
    declaration: Option<usize>,
    at: usize,
    value: Option<&'s Expr>,
) -> Result<(), AllocError>
    ensures ok { OnOk result (map rows.open_of out.new ≡ map rows.open_of out.old ++ spec.opens_if declaration at (option_copied value.entry)) }
{
    match value {
        Some(value) => out.push(Open {
            declaration,
            at,
            value,
        }),
        None => Ok(()),
    }
}

#[tactic(auto, using(crate::proofs::Opens::member_turn, crate::proofs::Opens::member_end))]
fn add_members<'s>(
    out: &mut Items<Open<'s>>,
    declaration: usize,
    members: &'s [Member],
) -> Result<(), AllocError>
    ensures ok { OnOk result (map rows.open_of out.new ≡ map rows.open_of out.old ++ spec.member_opens declaration 0 members.now) }
{
    for (at, member) in members.iter().enumerate() {
        add(out, Some(declaration), at, member_value(member))?;
    }
    Ok(())
}

/// The default of a key without a written type.
fn entry_value(entry: &Entry) -> Option<&Expr>
    ensures { option_copied result ≡ spec.entry_value entry.now }
{
    match &entry.declared {
        Some(_) => None,
        None => Some(&entry.value),
    }
}

#[tactic(auto, using(crate::proofs::Opens::entry_turn, crate::proofs::Opens::entry_end))]
fn add_entries<'s>(
    out: &mut Items<Open<'s>>,
    key: u32,
    entries: &'s [Entry],
) -> Result<(), AllocError>
    ensures ok { OnOk result (map rows.open_of out.new ≡ map rows.open_of out.old ++ spec.entry_opens key entries.now) }
{
    let mut at = key;
    for entry in entries {
        add(out, None, at as usize, entry_value(entry))?;
        at = after(at, 1);
    }
    Ok(())
}

fn add_piece<'s>(
    out: &mut Items<Open<'s>>,
    declaration: usize,
    key: u32,
    piece: &'s Piece,
) -> Result<(), AllocError>
    ensures ok { OnOk result (map rows.open_of out.new ≡ map rows.open_of out.old ++ spec.piece_opens declaration key piece.now.form) }
{
    match &piece.form {
        PieceForm::Struct(piece) => match &piece.body {
            StructBody::LeftAside => Ok(()),
            StructBody::Members(members) => add_members(out, declaration, members.as_slice()),
        },
        PieceForm::Environment(entries) => add_entries(out, key, entries.as_slice()),
        _ => Ok(()),
    }
}

/// How many declarations the piece is.
fn declared(piece: &Piece) -> usize
    ensures value { result ≡ (if heads.declares piece.now then 1 else 0) }
    ensures small { result ≤ 1 }
{
    match &piece.form {
        PieceForm::Struct(piece) => match &piece.body {
            StructBody::LeftAside => 0,
            StructBody::Members(_) => 1,
        },
        PieceForm::Enum(_) => 1,
        _ => 0,
    }
}

fn entry_count(piece: &Piece) -> usize
    ensures { result ≡ length (heads.entries_of piece.now) }
{
    match &piece.form {
        PieceForm::Environment(entries) => entries.len(),
        _ => 0,
    }
}

/// The properties and keys without a written type, in text order.
#[tactic(auto, using(crate::proofs::Opens::opens_turn, crate::proofs::Opens::opens_end), unfolding(known_rules::specs::Known::opens))]
pub fn opens(alloc: Global, source: &Source) -> Result<Items<Open<'_>>, AllocError>
    ensures { IfOk result (λ os. map rows.open_of os ≡ spec.opens source.now) }
{
    let mut out = Items::new(alloc);
    let mut declaration = 0;
    let mut key = 1;
    for piece in source.pieces.as_slice() {
        add_piece(&mut out, declaration, key, piece)?;
        declaration += declared(piece);
        key = after(key, entry_count(piece));
    }
    Ok(out)
}
