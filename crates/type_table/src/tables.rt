ghost use Rattle.std.specs.Prelude.{◌≡◌, ◌+◌, ◌++◌, ◌∷◌, [], map, option_copied, IfOk, OnOk};
ghost use Rattle.std.specs.List.{find};
ghost use Rattle.type_table.specs.Along as along;
ghost use Rattle.type_table.specs.Heads as pieces_of;
ghost use Rattle.type_table.specs.Tables as spec;

use crate::forms::declared_type;
use crate::heads::{heads_table, is_key, struct_kind};
use crate::number::{add_place, narrow, next_if, wide_after};
use crate::places::places;
use crate::signatures::{case_count, enum_signatures, struct_signatures};
use crate::sizes::piece_size;
use member_forms::{is_named, sort_of};
use name_map::NameMap;
use std::alloc::{AllocError, Global};
use sv_items::Items;
use swift_ast::{Entry, Piece, PieceForm, Source, StructBody};
use swift_core::{
    CodeId, Declaration, EnvironmentKey, Kind, PreferenceKey, Signature, SignatureForm, Table, Ty,
};
use swift_lex::Word;

/// The place of each member by its name.
#[tactic(auto, using(crate::proofs::Parts::signature_turn))]
fn signature_places(alloc: Global, members: &[Signature]) -> Result<NameMap, AllocError>
    ensures { IfOk result (λ m. m ≡ along.first_places (map spec.signature_name members.now)) }
{
    let mut places = NameMap::new(alloc);
    for (at, member) in members.iter().enumerate() {
        add_place(alloc, &mut places, &member.name, at)?;
    }
    Ok(places)
}

/// A declaration with its members.
pub fn with_members(
    alloc: Global,
    name: &Word,
    kind: Kind,
    is_main: bool,
    members: Items<Signature>,
) -> Result<Declaration, AllocError>
    ensures { IfOk result (λ d. d ≡ spec.with_members (pieces_of.head name.now kind is_main) members) }
{
    let names = signature_places(alloc, members.as_slice())?;
    Ok(Declaration {
        name: name.copy(alloc)?,
        kind,
        is_main,
        members,
        names,
    })
}

/// Adds the declaration of a piece, if it is one, with its members.
fn add_declaration(
    alloc: Global,
    heads: &Table,
    out: &mut Items<Declaration>,
    first: usize,
    key: u32,
    piece: &Piece,
) -> Result<(), AllocError>
    ensures ok { OnOk result (out.new ≡ out.old ++ spec.declarations_at heads.now first key piece.now.form) }
{
    match &piece.form {
        PieceForm::Struct(piece) => match &piece.body {
            StructBody::LeftAside => Ok(()),
            StructBody::Members(members) => {
                let names = piece.names.as_slice();
                let sort = sort_of(names);
                let members = struct_signatures(alloc, heads, sort, first, members.as_slice())?;
                let kind = struct_kind(key, names, sort);
                out.push(with_members(alloc, &piece.name, kind, piece.is_main, members)?)
            }
        },
        PieceForm::Enum(piece) => {
            let items = piece.items.as_slice();
            let members = enum_signatures(alloc, heads, first, items)?;
            let kind = Kind::Enum(
                is_named(piece.names.as_slice(), b"CaseIterable"),
                case_count(items),
            );
            out.push(with_members(alloc, &piece.name, kind, false, members)?)
        }
        _ => Ok(()),
    }
}

/// The declarations in text order, with their members.
#[tactic(auto, using(crate::proofs::Parts::declarations_turn, crate::proofs::Parts::first_turn, crate::proofs::Pieces::key_turn))]
fn declarations(
    alloc: Global,
    heads: &Table,
    pieces: &[Piece],
) -> Result<Items<Declaration>, AllocError>
    ensures { IfOk result (λ ds. ds ≡ spec.declarations heads.now pieces.now) }
{
    let mut out = Items::new(alloc);
    let mut first = 1;
    let mut key = 0;
    for piece in pieces {
        add_declaration(alloc, heads, &mut out, first, key, piece)?;
        first = wide_after(first, piece_size(piece));
        key = next_if(key, is_key(piece));
    }
    Ok(out)
}

/// Adds the keys of the entries, where this is the number of the code of the first one.
#[tactic(auto, using(crate::proofs::Parts::keys_more))]
fn add_keys(
    alloc: Global,
    heads: &Table,
    out: &mut Items<EnvironmentKey>,
    first: usize,
    entries: &[Entry],
) -> Result<(), AllocError>
    ensures ok { OnOk result (out.new ≡ out.old ++ spec.environment_keys heads.now first entries.now) }
{
    for (at, entry) in entries.iter().enumerate() {
        let ty = declared_type(alloc, heads, &entry.declared)?;
        let number = wide_after(first, at);
        out.push(EnvironmentKey {
            name: entry.name.copy(alloc)?,
            ty,
            default: CodeId { number },
        })?;
    }
    Ok(())
}

/// Adds the keys of a piece.
fn add_piece_keys(
    alloc: Global,
    heads: &Table,
    out: &mut Items<EnvironmentKey>,
    first: usize,
    piece: &Piece,
) -> Result<(), AllocError>
    ensures ok { OnOk result (out.new ≡ out.old ++ spec.environment_keys heads.now first (pieces_of.entries_of piece.now)) }
{
    match &piece.form {
        PieceForm::Environment(entries) => add_keys(alloc, heads, out, first, entries.as_slice()),
        _ => add_keys(alloc, heads, out, first, &[]),
    }
}

/// The key that is built in.
fn is_enabled(alloc: Global) -> Result<EnvironmentKey, AllocError>
    ensures { IfOk result (λ k. k ≡ spec.is_enabled) }
{
    Ok(EnvironmentKey {
        name: Word::new(Vec::from_slice(alloc, b"isEnabled")?),
        ty: Some(Ty::Bool),
        default: CodeId { number: 0 },
    })
}

fn built_in_keys(alloc: Global) -> Result<Items<EnvironmentKey>, AllocError>
    ensures { IfOk result (λ ks. ks ≡ spec.is_enabled ∷ []) }
{
    let mut out = Items::new(alloc);
    out.push(is_enabled(alloc)?)?;
    Ok(out)
}

/// The environment keys.
#[tactic(auto, using(crate::proofs::Parts::environment_turn, crate::proofs::Parts::first_turn))]
fn environment(
    alloc: Global,
    heads: &Table,
    pieces: &[Piece],
) -> Result<Items<EnvironmentKey>, AllocError>
    ensures { IfOk result (λ ks. ks ≡ spec.environment heads.now pieces.now) }
{
    let mut out = built_in_keys(alloc)?;
    let mut first = 1;
    for piece in pieces {
        add_piece_keys(alloc, heads, &mut out, first, piece)?;
        first = wide_after(first, piece_size(piece));
    }
    Ok(out)
}

fn is_static(member: &Signature) -> bool
    ensures { result ≡ spec.is_static member.now }
{
    match &member.form {
        SignatureForm::Static(_) => true,
        _ => false,
    }
}

fn is_reduce(member: &Signature) -> bool
    ensures { result ≡ spec.is_reduce member.now }
{
    match &member.form {
        SignatureForm::Reduce => true,
        _ => false,
    }
}

fn find_static(members: &[Signature]) -> Option<&Signature>
    ensures { option_copied result ≡ find spec.is_static members.now }
{
    members.iter().find(|member| is_static(member))
}

fn find_reduce(members: &[Signature]) -> Option<&Signature>
    ensures { option_copied result ≡ find spec.is_reduce members.now }
{
    members.iter().find(|member| is_reduce(member))
}

fn static_type(alloc: Global, member: Option<&Signature>) -> Result<Option<Ty>, AllocError>
    ensures { IfOk result (λ t. t ≡ spec.type_or_none (option_copied member.entry)) }
{
    match member {
        Some(member) => match &member.form {
            SignatureForm::Static(Some(ty)) => Ok(Some(ty.copy(alloc)?)),
            _ => Ok(None),
        },
        None => Ok(None),
    }
}

fn code_or_first(member: Option<&Signature>) -> CodeId
    ensures { result ≡ spec.code_or_first (option_copied member.entry) }
{
    match member {
        Some(member) => member.code,
        None => CodeId { number: 0 },
    }
}

/// Adds the preference key that a declaration is, if it is one.
fn add_preference(
    alloc: Global,
    out: &mut Items<PreferenceKey>,
    at: usize,
    declaration: &Declaration,
) -> Result<(), AllocError>
    ensures ok { OnOk result (out.new ≡ out.old ++ spec.preference_at at declaration.now declaration.now.kind) }
{
    match declaration.kind {
        Kind::Key(_) => {
            let members = declaration.members.as_slice();
            let default = find_static(members);
            let ty = static_type(alloc, default)?;
            out.push(PreferenceKey {
                declaration: narrow(at),
                ty,
                default: code_or_first(default),
                reduce: code_or_first(find_reduce(members)),
            })
        }
        _ => Ok(()),
    }
}

/// The preference keys.
#[tactic(auto, using(crate::proofs::Parts::preferences_turn))]
pub fn preferences(
    alloc: Global,
    declarations: &[Declaration],
) -> Result<Items<PreferenceKey>, AllocError>
    ensures { IfOk result (λ ks. ks ≡ spec.preferences declarations.now) }
{
    let mut out = Items::new(alloc);
    for (at, declaration) in declarations.iter().enumerate() {
        add_preference(alloc, &mut out, at, declaration)?;
    }
    Ok(out)
}

/// The table of a source file: its declarations with the written types of their members, its keys, and where each member
/// stands. A property without a written type has no type here.
#[tactic(auto, unfolding(crate::specs::Tables::table_of))]
pub fn build_table(alloc: Global, source: &Source) -> Result<Table, AllocError>
    ensures table { IfOk result (λ t. t ≡ spec.table_of source.now) }
{
    let pieces = source.pieces.as_slice();
    let heads = heads_table(alloc, pieces)?;
    let declarations = declarations(alloc, &heads, pieces)?;
    let environment = environment(alloc, &heads, pieces)?;
    let preferences = preferences(alloc, declarations.as_slice())?;
    let members = places(alloc, pieces)?;
    Ok(Table {
        declarations,
        environment,
        preferences,
        members,
        names: heads.names,
        keys: heads.keys,
    })
}
