ghost use Rattle.std.specs.Prelude.{◌≡◌, ◌++◌, ◌∷◌, [], codes, map, IfOk, OnOk};
ghost use Rattle.type_table.specs.Along as along;
ghost use Rattle.type_table.specs.Heads as spec;

use crate::number::{add_place, next_if};
use crate::signatures::case_count;
use member_forms::{Sort, is_named, sort_of};
use name_map::NameMap;
use std::alloc::{AllocError, Global};
use sv_items::Items;
use swift_ast::{Entry, Piece, PieceForm, StructBody};
use swift_core::{Declaration, Kind, Table};
use swift_lex::Word;

/// The kind of a struct, where this is the number of the next preference key.
pub fn struct_kind(key: u32, names: &[Word], sort: Sort) -> Kind
    ensures { result ≡ spec.struct_kind key names.now sort }
{
    match sort {
        Sort::Data | Sort::Enum => Kind::Data(is_named(names, b"Identifiable")),
        Sort::View => Kind::View,
        Sort::App => Kind::App,
        Sort::Key => Kind::Key(key),
    }
}

fn is_key_sort(sort: Sort) -> bool
    ensures { result ≡ spec.is_key_sort sort }
{
    match sort {
        Sort::Key => true,
        _ => false,
    }
}

/// Whether the piece is a preference key.
pub fn is_key(piece: &Piece) -> bool
    ensures { result ≡ spec.is_key piece.now }
{
    match &piece.form {
        PieceForm::Struct(piece) => match &piece.body {
            StructBody::LeftAside => false,
            StructBody::Members(_) => is_key_sort(sort_of(piece.names.as_slice())),
        },
        _ => false,
    }
}

/// A declaration whose members are not known.
fn head(alloc: Global, name: &Word, kind: Kind, is_main: bool) -> Result<Declaration, AllocError>
    ensures { IfOk result (λ d. d ≡ spec.head name.now kind is_main) }
{
    Ok(Declaration {
        name: name.copy(alloc)?,
        kind,
        is_main,
        members: Items::new(alloc),
        names: NameMap::new(alloc),
    })
}

/// Adds the declaration of a piece, if it is one.
fn add_head(
    alloc: Global,
    out: &mut Items<Declaration>,
    key: u32,
    piece: &Piece,
) -> Result<(), AllocError>
    ensures ok { OnOk result (out.new ≡ out.old ++ spec.heads_at key piece.now.form) }
{
    match &piece.form {
        PieceForm::Struct(piece) => match &piece.body {
            StructBody::LeftAside => Ok(()),
            StructBody::Members(_) => {
                let names = piece.names.as_slice();
                let kind = struct_kind(key, names, sort_of(names));
                out.push(head(alloc, &piece.name, kind, piece.is_main)?)
            }
        },
        PieceForm::Enum(piece) => {
            let iterable = is_named(piece.names.as_slice(), b"CaseIterable");
            let kind = Kind::Enum(iterable, case_count(piece.items.as_slice()));
            out.push(head(alloc, &piece.name, kind, false)?)
        }
        _ => Ok(()),
    }
}

/// The declarations in text order, without their members.
#[tactic(auto, using(crate::proofs::Pieces::heads_turn, crate::proofs::Pieces::key_turn))]
fn heads(alloc: Global, pieces: &[Piece]) -> Result<Items<Declaration>, AllocError>
    ensures { IfOk result (λ ds. ds ≡ spec.heads pieces.now) }
{
    let mut out = Items::new(alloc);
    let mut key = 0;
    for piece in pieces {
        add_head(alloc, &mut out, key, piece)?;
        key = next_if(key, is_key(piece));
    }
    Ok(out)
}

/// The place of each declaration by its name.
#[tactic(auto, using(crate::proofs::Pieces::declaration_turn))]
fn declaration_places(alloc: Global, declarations: &[Declaration]) -> Result<NameMap, AllocError>
    ensures { IfOk result (λ m. m ≡ along.first_places (map spec.declaration_name declarations.now)) }
{
    let mut places = NameMap::new(alloc);
    for (at, declaration) in declarations.iter().enumerate() {
        add_place(alloc, &mut places, &declaration.name, at)?;
    }
    Ok(places)
}

/// Adds the names of the entries.
fn add_names(alloc: Global, out: &mut Items<Word>, entries: &[Entry]) -> Result<(), AllocError>
    ensures ok { OnOk result (out.new ≡ out.old ++ map spec.entry_name entries.now) }
{
    for entry in entries {
        out.push(entry.name.copy(alloc)?)?;
    }
    Ok(())
}

/// Adds the names of the entries of a piece.
fn add_entry_names(alloc: Global, out: &mut Items<Word>, piece: &Piece) -> Result<(), AllocError>
    ensures ok { OnOk result (out.new ≡ out.old ++ map spec.entry_name (spec.entries_of piece.now)) }
{
    match &piece.form {
        PieceForm::Environment(entries) => add_names(alloc, out, entries.as_slice()),
        _ => Ok(()),
    }
}

/// The name of the key that is built in.
fn built_in_names(alloc: Global) -> Result<Items<Word>, AllocError>
    ensures { IfOk result (λ names. names ≡ codes "isEnabled" ∷ []) }
{
    let mut out = Items::new(alloc);
    out.push(Word::new(Vec::from_slice(alloc, b"isEnabled")?))?;
    Ok(out)
}

/// The names of the environment keys. `isEnabled` is built in.
#[tactic(auto, using(crate::proofs::Pieces::names_turn))]
fn key_names(alloc: Global, pieces: &[Piece]) -> Result<Items<Word>, AllocError>
    ensures { IfOk result (λ names. names ≡ spec.key_names pieces.now) }
{
    let mut out = built_in_names(alloc)?;
    for piece in pieces {
        add_entry_names(alloc, &mut out, piece)?;
    }
    Ok(out)
}

/// The place of each word.
#[tactic(auto, using(crate::proofs::Turns::words_turn))]
fn word_places(alloc: Global, words: &[Word]) -> Result<NameMap, AllocError>
    ensures { IfOk result (λ m. m ≡ along.first_places words.now) }
{
    let mut places = NameMap::new(alloc);
    for (at, word) in words.iter().enumerate() {
        add_place(alloc, &mut places, word, at)?;
    }
    Ok(places)
}

/// The table that written types and names of keys are looked up in.
#[tactic(auto, unfolding(crate::specs::Heads::heads_table))]
pub fn heads_table(alloc: Global, pieces: &[Piece]) -> Result<Table, AllocError>
    ensures { IfOk result (λ t. t ≡ spec.heads_table pieces.now) }
{
    let declarations = heads(alloc, pieces)?;
    let names = declaration_places(alloc, declarations.as_slice())?;
    let words = key_names(alloc, pieces)?;
    let keys = word_places(alloc, words.as_slice())?;
    Ok(Table {
        declarations,
        environment: Items::new(alloc),
        preferences: Items::new(alloc),
        members: Items::new(alloc),
        names,
        keys,
    })
}
