ghost use Rattle.std.specs.Prelude.{◌≡◌, ◌++◌, [], ◌<◌, ◌&&◌, slice_get, option_copied, IfOk, OnOk};
ghost use Rattle.std.specs.List.{list_all};
ghost use Rattle.std.specs.Option.{option_to_list};
ghost use Rattle.type_base.specs.TypeNames.{written_type};
ghost use Rattle.type_base.specs.Depth.{deepest};
ghost use Rattle.type_twice.specs.Deep as spec;
ghost use Rattle.type_twice.specs.Rounds as rounds;

use member_forms::{Mark, Sort, is_mark, sort_of};
use std::alloc::{AllocError, Global};
use sv_items::{Boxed, Items};
use swift_ast::{Member, MemberForm, Modifier, Piece, PieceForm, Source, StructBody, TypeName};
use swift_core::{Declaration, Signature, SignatureForm, Table, Ty};
use type_base::{DEEPEST, optional, type_of};

/// The type that is written, however deep it is.
#[cycle(whole)]
#[tactic(auto, using(crate::proofs::Whole::whole_name), unfolding(type_base::specs::TypeNames::written_type, type_base::specs::Claims::and_then))]
fn whole_type(alloc: Global, table: &Table, name: &TypeName) -> Result<Option<Ty>, AllocError>
    ensures { IfOk result (λ t. t ≡ written_type table.now name.now) }
{
    match name {
        TypeName::Name(_) => type_of(alloc, table, name),
        TypeName::List(inside) => match whole_type(alloc, table, inside.get())? {
            Some(ty) => Ok(Some(Ty::List(Boxed::new(alloc, ty)?))),
            None => Ok(None),
        },
        TypeName::Optional(inside, count) => match whole_type(alloc, table, inside.get())? {
            Some(ty) => Ok(Some(optional(alloc, *count, ty)?)),
            None => Ok(None),
        },
    }
}

/// The type of a stored property in the table.
fn stored_type(alloc: Global, signature: Option<&Signature>) -> Result<Option<Ty>, AllocError>
    ensures { IfOk result (λ t. t ≡ spec.stored_type (option_copied signature.entry)) }
{
    match signature {
        Some(signature) => match &signature.form {
            SignatureForm::Stored(_, _, Some(ty), _) => Ok(Some(ty.copy(alloc)?)),
            _ => Ok(None),
        },
        None => Ok(None),
    }
}

fn is_static(modifiers: &[Modifier]) -> bool
    ensures { result ≡ spec.is_static modifiers.now }
{
    modifiers
        .iter()
        .any(|modifier| is_mark(modifier, Mark::Static))
}

/// The type of what a member holds, if it is a stored property and has a type.
fn held(
    alloc: Global,
    table: &Table,
    signature: Option<&Signature>,
    member: &Member,
) -> Result<Option<Ty>, AllocError>
    ensures { IfOk result (λ t. t ≡ spec.held_at table.now (option_copied signature.entry) member.now.modifiers member.now.form) }
{
    match &member.form {
        MemberForm::Stored(_, _, declared, _) => {
            if is_static(member.modifiers.as_slice()) {
                return Ok(None);
            }
            match declared {
                Some(name) => whole_type(alloc, table, name),
                None => stored_type(alloc, signature),
            }
        }
        _ => Ok(None),
    }
}

/// Adds the type of what a member holds.
fn add_held(
    alloc: Global,
    out: &mut Items<Ty>,
    table: &Table,
    signature: Option<&Signature>,
    member: &Member,
) -> Result<(), AllocError>
    ensures ok { OnOk result (out.new ≡ out.old ++ option_to_list (spec.held_at table.now (option_copied signature.entry) member.now.modifiers member.now.form)) }
{
    match held(alloc, table, signature, member)? {
        Some(ty) => out.push(ty),
        None => Ok(()),
    }
}

/// A member of the declaration, if there is one.
fn signature_at(declaration: Option<&Declaration>, at: usize) -> Option<&Signature>
    ensures { option_copied result ≡ slice_get (spec.members_of (option_copied declaration.entry)) at }
{
    match declaration {
        Some(declaration) => declaration.members.get(at),
        None => None,
    }
}

/// The types of the stored properties.
#[tactic(auto, using(crate::proofs::Depths::held_turn, crate::proofs::Depths::held_end))]
fn struct_held(
    alloc: Global,
    table: &Table,
    declaration: Option<&Declaration>,
    members: &[Member],
) -> Result<Items<Ty>, AllocError>
    ensures { IfOk result (λ ts. ts ≡ spec.held_from table.now (spec.members_of (option_copied declaration.entry)) 0 members.now) }
{
    let mut out = Items::new(alloc);
    for (at, member) in members.iter().enumerate() {
        let signature = signature_at(declaration, at);
        add_held(alloc, &mut out, table, signature, member)?;
    }
    Ok(out)
}

fn is_data_sort(sort: Sort) -> bool
    ensures { result ≡ spec.is_data_sort sort }
{
    match sort {
        Sort::Data => true,
        _ => false,
    }
}

/// What a piece holds that is this declaration.
fn piece_held(
    alloc: Global,
    table: &Table,
    declaration: Option<&Declaration>,
    piece: &Piece,
) -> Result<Items<Ty>, AllocError>
    ensures { IfOk result (λ ts. ts ≡ spec.piece_held table.now (option_copied declaration.entry) piece.now.form) }
{
    match &piece.form {
        PieceForm::Struct(piece) => match &piece.body {
            StructBody::LeftAside => Ok(Items::new(alloc)),
            StructBody::Members(members) => {
                if !is_data_sort(sort_of(piece.names.as_slice())) {
                    return Ok(Items::new(alloc));
                }
                struct_held(alloc, table, declaration, members.as_slice())
            }
        },
        _ => Ok(Items::new(alloc)),
    }
}

fn declares(piece: &Piece) -> bool
    ensures { result ≡ spec.declares_at piece.now.form }
{
    match &piece.form {
        PieceForm::Struct(piece) => match &piece.body {
            StructBody::LeftAside => false,
            StructBody::Members(_) => true,
        },
        PieceForm::Enum(_) => true,
        _ => false,
    }
}

/// What each declaration holds.
#[tactic(auto, using(crate::proofs::Depths::holds_turn, crate::proofs::Depths::holds_left, crate::proofs::Depths::holds_end), unfolding(crate::specs::Deep::holds))]
fn holds(alloc: Global, source: &Source, table: &Table) -> Result<Items<Items<Ty>>, AllocError>
    ensures { IfOk result (λ hs. hs ≡ spec.holds source.now table.now) }
{
    let mut out = Items::new(alloc);
    for piece in source.pieces.as_slice() {
        if declares(piece) {
            let declaration = table.declarations.get(out.len());
            out.push(piece_held(alloc, table, declaration, piece)?)?;
        }
    }
    Ok(out)
}

/// Whether the depth of the declaration is known, and is at most this.
fn says(known: &[usize], room: usize, declaration: usize) -> bool
    ensures { result ≡ rounds.says known.now room declaration }
{
    match known.get(declaration) {
        Some(depth) => *depth > 0 && *depth <= room,
        None => false,
    }
}

/// Whether the type is at most this deep, by the depths that are known.
#[cycle(fits)]
#[tactic(auto, using(crate::proofs::Depths::fits_none, crate::proofs::Depths::fits_some))]
fn fits(known: &[usize], room: usize, ty: &Ty) -> bool
    ensures { result ≡ rounds.fits_known known.now room ty.now }
{
    if room == 0 {
        return false;
    }
    match ty {
        Ty::List(inside) => fits(known, room - 1, inside.get()),
        Ty::Optional(inside) => fits(known, room - 1, inside.get()),
        Ty::Named(declaration) => says(known, room, *declaration as usize),
        _ => true,
    }
}

fn all_fit(known: &[usize], room: usize, types: &[Ty]) -> bool
    ensures { result ≡ list_all (rounds.fits_known known.now room) types.now }
{
    types.iter().all(|ty| fits(known, room, ty))
}

/// The depth of a declaration, where it is known or is one more than this.
fn next_depth(known: &[usize], room: usize, at: usize, types: &[Ty]) -> usize
    requires { room < 1000 }
    ensures { result ≡ rounds.next_depth known.now room (slice_get known.now at) types.now }
{
    match known.get(at) {
        Some(depth) => {
            if *depth > 0 {
                return *depth;
            }
        }
        None => (),
    }
    if all_fit(known, room, types) {
        room + 1
    } else {
        0
    }
}

/// The depths of the declarations that are at most one deeper than this.
#[tactic(auto, using(crate::proofs::Depths::next_turn, crate::proofs::Depths::next_end))]
fn next(
    alloc: Global,
    holds: &[Items<Ty>],
    known: &[usize],
    room: usize,
) -> Result<Items<usize>, AllocError>
    requires { room < 1000 }
    ensures { IfOk result (λ ks. ks ≡ rounds.next_from known.now room 0 holds.now) }
{
    let mut out = Items::new(alloc);
    for (at, types) in holds.iter().enumerate() {
        out.push(next_depth(known, room, at, types.as_slice()))?;
    }
    Ok(out)
}

fn unknown(alloc: Global, holds: &[Items<Ty>]) -> Result<Items<usize>, AllocError>
    ensures { IfOk result (λ ks. ks ≡ rounds.unknown holds.now) }
{
    let mut out = Items::new(alloc);
    for types in holds {
        out.push(0)?;
    }
    Ok(out)
}

/// The depth of each declaration, and 0 for one that is deeper than a type may be.
#[tactic(auto, unfolding(type_base::specs::Depth::deepest))]
fn depths(alloc: Global, holds: &[Items<Ty>]) -> Result<Items<usize>, AllocError>
    ensures { IfOk result (λ ks. ks ≡ rounds.known_at holds.now deepest) }
{
    let mut known = unknown(alloc, holds)?;
    for room in 0..DEEPEST {
        known = next(alloc, holds, known.as_slice(), room)?;
    }
    Ok(known)
}

fn is_data(piece: &Piece) -> bool
    ensures { result ≡ spec.is_data_at piece.now.form }
{
    match &piece.form {
        PieceForm::Struct(piece) => match &piece.body {
            StructBody::LeftAside => false,
            StructBody::Members(_) => is_data_sort(sort_of(piece.names.as_slice())),
        },
        _ => false,
    }
}

/// Whether the piece is a data struct whose depth is not known.
#[tactic(auto, unfolding(crate::specs::Rounds::deep_known))]
fn is_deep(piece: &Piece, known: &[usize], at: usize) -> bool
    ensures { result ≡ (spec.is_data_at piece.now.form && rounds.deep_known known.now at) }
{
    is_data(piece) && !says(known, 64, at)
}

/// The line of the first data struct whose depth is not known.
#[tactic(auto, using(crate::proofs::Depths::deep_found, crate::proofs::Depths::deep_passed, crate::proofs::Depths::deep_other, crate::proofs::Depths::deep_end))]
fn first_deep(pieces: &[Piece], known: &[usize]) -> Option<u32>
    ensures { result ≡ spec.first_deep (rounds.deep_known known.now) 0 pieces.now }
{
    let mut at = 0;
    for piece in pieces {
        if declares(piece) {
            if is_deep(piece, known, at) {
                return Some(piece.span.line);
            }
            at += 1;
        }
    }
    None
}

/// The line of the first data struct that is deeper than a type may be: one that holds itself through structs, lists or
/// optionals, one that holds such a struct, and one that is deeper than 64. A property without a type holds nothing.
#[tactic(auto, using(crate::proofs::Depths::recursive_is))]
pub fn find_recursive(
    alloc: Global,
    source: &Source,
    table: &Table,
) -> Result<Option<u32>, AllocError>
    ensures recursive { IfOk result (λ o. o ≡ spec.recursive source.now table.now) }
{
    let holds = holds(alloc, source, table)?;
    let known = depths(alloc, holds.as_slice())?;
    Ok(first_deep(source.pieces.as_slice(), known.as_slice()))
}
