ghost use Rattle.std.specs.Prelude.{◌≡◌, ◌&&◌, ◌||◌, None, IfOk, OnOk, codes};
ghost use Rattle.type_twice.specs.Twice as spec;
ghost use Rattle.type_twice.specs.Held as held;

use crate::built_in::is_built_in;
use crate::names::{Named, key_names, member_names};
use member_forms::is_named;
use name_map::NameMap;
use std::alloc::{AllocError, Global};
use swift_ast::{Piece, PieceForm, Source, StructBody};
use swift_lex::Word;

/// The names that stand so far.
#[derive(Drop)]
pub struct Seen {
    pub declared: NameMap,
    pub keys: NameMap,
    pub has_main: bool,
}

/// Adds a name, and tells whether it stood already. `_` names nothing, and never stood.
fn put(alloc: Global, names: &mut NameMap, name: &Word) -> Result<bool, AllocError>
    ensures stood { IfOk result (λ b. b ≡ held.is_held names.old name.now) }
    ensures ok { OnOk result (names.new ≡ held.put names.old name.now) }
{
    let stood = names.insert(name.copy(alloc)?.into_vec(), 0)?;
    Ok(stood && !name.is(b"_"))
}

/// The line of the first name that stands already.
#[tactic(auto, using(crate::proofs::Repeats::held_found, crate::proofs::Repeats::held_passed, crate::proofs::Repeats::held_end, crate::proofs::Repeats::put_turn))]
fn first_repeat(
    alloc: Global,
    names: &mut NameMap,
    more: &[Named],
) -> Result<Option<u32>, AllocError>
    ensures found { IfOk result (λ o. o ≡ held.first_held names.old more.now) }
    ensures after { IfOk result (λ o. o ≡ None → names.new ≡ held.put_all names.old more.now) }
{
    for name in more {
        if put(alloc, names, &name.name)? {
            return Ok(Some(name.line));
        }
    }
    Ok(None)
}

/// Adds a declaration, and tells whether it is a second one: by `@main`, by a name that is built in or stands already.
fn put_heading(
    alloc: Global,
    seen: &mut Seen,
    name: &Word,
    is_main: bool,
) -> Result<bool, AllocError>
    ensures second { IfOk result (λ b. b ≡ ((is_main && seen.old.has_main) || spec.is_built_in name.now || held.is_held seen.old.declared name.now)) }
    ensures ok { OnOk result (seen.new ≡ record { declared = held.put seen.old.declared name.now; keys = seen.old.keys; has_main = seen.old.has_main || is_main }) }
{
    let stood = put(alloc, &mut seen.declared, name)?;
    let second_main = is_main && seen.has_main;
    seen.has_main = seen.has_main || is_main;
    Ok(second_main || is_built_in(name) || stood)
}

/// Adds the declaration that a piece is, if it is one, and tells whether it is a second one.
fn put_piece(alloc: Global, seen: &mut Seen, piece: &Piece) -> Result<bool, AllocError>
    ensures second { IfOk result (λ b. b ≡ held.is_second_heading seen.old (spec.heading piece.now)) }
    ensures ok { OnOk result (seen.new ≡ held.with_heading seen.old (spec.heading piece.now)) }
{
    match &piece.form {
        PieceForm::Struct(piece) => match &piece.body {
            StructBody::LeftAside => Ok(false),
            StructBody::Members(_) => put_heading(alloc, seen, &piece.name, piece.is_main),
        },
        PieceForm::Enum(piece) => put_heading(alloc, seen, &piece.name, false),
        _ => Ok(false),
    }
}

/// The names of members that a piece has without writing them.
fn given(alloc: Global, piece: &Piece) -> Result<NameMap, AllocError>
    ensures { IfOk result (λ m. m ≡ held.given_held piece.now.form) }
{
    let mut names = NameMap::new(alloc);
    match &piece.form {
        PieceForm::Enum(piece) => {
            if is_named(piece.names.as_slice(), b"CaseIterable") {
                names.insert(Vec::from_slice(alloc, b"allCases")?, 0)?;
                Ok(names)
            } else {
                Ok(names)
            }
        }
        _ => Ok(names),
    }
}

/// The line of the first member whose name another member has already.
fn second_member(alloc: Global, piece: &Piece) -> Result<Option<u32>, AllocError>
    ensures { IfOk result (λ o. o ≡ held.first_held (held.given_held piece.now.form) (spec.member_names piece.now)) }
{
    let names = member_names(alloc, piece)?;
    let mut held = given(alloc, piece)?;
    first_repeat(alloc, &mut held, names.as_slice())
}

/// Adds the keys of a piece. The line of the first one whose name stands already.
fn second_key(alloc: Global, seen: &mut Seen, piece: &Piece) -> Result<Option<u32>, AllocError>
    ensures found { IfOk result (λ o. o ≡ held.first_held seen.old.keys (spec.key_names piece.now)) }
    ensures after { IfOk result (λ o. o ≡ None → seen.new ≡ held.with_keys seen.old (spec.key_names piece.now)) }
{
    let keys = key_names(alloc, piece)?;
    first_repeat(alloc, &mut seen.keys, keys.as_slice())
}

/// The first line of a piece on which something is declared that stands already.
#[tactic(auto, unfolding(crate::specs::Held::second_seen, crate::specs::Held::passed))]
fn second(alloc: Global, seen: &mut Seen, piece: &Piece) -> Result<Option<u32>, AllocError>
    ensures found { IfOk result (λ o. o ≡ held.second_seen seen.old piece.now) }
    ensures after { IfOk result (λ o. o ≡ None → seen.new ≡ held.passed seen.old piece.now) }
{
    if put_piece(alloc, seen, piece)? {
        return Ok(Some(piece.span.line));
    }
    match second_member(alloc, piece)? {
        Some(line) => Ok(Some(line)),
        None => second_key(alloc, seen, piece),
    }
}

/// The names that stand before the program.
fn start(alloc: Global) -> Result<Seen, AllocError>
    ensures { IfOk result (λ s. s ≡ held.start) }
{
    let mut keys = NameMap::new(alloc);
    keys.insert(Vec::from_slice(alloc, b"isEnabled")?, 0)?;
    Ok(Seen {
        declared: NameMap::new(alloc),
        keys,
        has_main: false,
    })
}

/// The line of the first declaration in text order that is a second one: a second declaration of a name, also of one that is
/// built in, a second member of a name in one declaration, a second environment key, or a second `@main`.
#[tactic(auto, using(crate::proofs::Repeats::twice_found, crate::proofs::Repeats::twice_passed, crate::proofs::Repeats::twice_end, crate::proofs::Repeats::twice_is))]
pub fn find_twice(alloc: Global, source: &Source) -> Result<Option<u32>, AllocError>
    ensures twice { IfOk result (λ o. o ≡ spec.twice source.now) }
{
    let mut seen = start(alloc)?;
    for piece in source.pieces.as_slice() {
        let found = second(alloc, &mut seen, piece)?;
        match found {
            Some(_) => return Ok(found),
            None => (),
        }
    }
    Ok(None)
}
