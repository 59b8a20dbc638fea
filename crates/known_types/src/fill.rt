ghost use Rattle.std.specs.Prelude.{◌≡◌, false};
ghost use Rattle.known_rules.specs.Known as spec;

use name_map::NameMap;
use std::alloc::Global;
use sv_items::Items;
use swift_core::{CodeId, Declaration, EnvironmentKey, Kind, Signature, SignatureForm, Table, Ty};
use swift_lex::Word;

/// The type, where the property has none, and whether it had none.
fn fill_form(form: SignatureForm, ty: Ty) -> (SignatureForm, bool)
    ensures value { result.0 ≡ spec.filled_form form ty }
    ensures same { result.1 ≡ false → form ≡ result.0 }
{
    match form {
        SignatureForm::Stored(place, binder, None, argument) => {
            (
                SignatureForm::Stored(place, binder, Some(ty), argument),
                true,
            )
        }
        SignatureForm::State(place, None, argument) => {
            (SignatureForm::State(place, Some(ty), argument), true)
        }
        SignatureForm::Static(None) => (SignatureForm::Static(Some(ty)), true),
        other => (other, false),
    }
}

fn fill(signature: Signature, ty: Ty) -> (Signature, bool)
    ensures value { result.0 ≡ spec.filled ty signature }
    ensures same { result.1 ≡ false → signature ≡ result.0 }
{
    let Signature { name, code, form } = signature;
    let (form, changed) = fill_form(form, ty);
    (Signature { name, code, form }, changed)
}

/// Gives the member at a place the type, where it has none. Tells whether it had none.
#[tactic(auto, using(crate::proofs::Changes::set_changed, crate::proofs::Changes::set_same, crate::proofs::Changes::changed_past))]
fn fill_member(alloc: Global, members: &mut Items<Signature>, at: usize, ty: Ty) -> bool
    ensures value { members.new ≡ spec.changed_at (spec.filled ty) members.old at }
    ensures same { result ≡ false → members.new ≡ members.old }
{
    if at >= members.len() {
        return false;
    }
    let empty = Signature {
        name: Word::new(Vec::new(alloc)),
        code: CodeId { number: 0 },
        form: SignatureForm::Unfit,
    };
    let (signature, changed) = fill(members.replace(at, empty), ty);
    members.set(at, signature);
    changed
}

fn fill_declaration(
    alloc: Global,
    declaration: Declaration,
    at: usize,
    ty: Ty,
) -> (Declaration, bool)
    ensures value { result.0 ≡ spec.filled_declaration at ty declaration }
    ensures same { result.1 ≡ false → declaration ≡ result.0 }
{
    let Declaration {
        name,
        kind,
        is_main,
        mut members,
        names,
    } = declaration;
    let changed = fill_member(alloc, &mut members, at, ty);
    (
        Declaration {
            name,
            kind,
            is_main,
            members,
            names,
        },
        changed,
    )
}

/// Gives a member of the declaration at a place the type, where it has none.
#[tactic(auto, using(crate::proofs::Changes::set_changed, crate::proofs::Changes::set_same, crate::proofs::Changes::changed_past))]
fn fill_declared(
    alloc: Global,
    declarations: &mut Items<Declaration>,
    declaration: usize,
    at: usize,
    ty: Ty,
) -> bool
    ensures value { declarations.new ≡ spec.changed_at (spec.filled_declaration at ty) declarations.old declaration }
    ensures same { result ≡ false → declarations.new ≡ declarations.old }
{
    if declaration >= declarations.len() {
        return false;
    }
    let empty = Declaration {
        name: Word::new(Vec::new(alloc)),
        kind: Kind::View,
        is_main: false,
        members: Items::new(alloc),
        names: NameMap::new(alloc),
    };
    let (filled, changed) = fill_declaration(
        alloc,
        declarations.replace(declaration, empty),
        at,
        ty,
    );
    declarations.set(declaration, filled);
    changed
}

fn fill_one_key(key: EnvironmentKey, ty: Ty) -> (EnvironmentKey, bool)
    ensures value { result.0 ≡ spec.filled_key ty key }
    ensures same { result.1 ≡ false → key ≡ result.0 }
{
    let EnvironmentKey {
        name,
        ty: known,
        default,
    } = key;
    match known {
        Some(known) => (
            EnvironmentKey {
                name,
                ty: Some(known),
                default,
            },
            false,
        ),
        None => (
            EnvironmentKey {
                name,
                ty: Some(ty),
                default,
            },
            true,
        ),
    }
}

/// Gives the environment key at a place the type, where it has none.
#[tactic(auto, using(crate::proofs::Changes::set_changed, crate::proofs::Changes::set_same, crate::proofs::Changes::changed_past))]
fn fill_key(alloc: Global, keys: &mut Items<EnvironmentKey>, at: usize, ty: Ty) -> bool
    ensures value { keys.new ≡ spec.changed_at (spec.filled_key ty) keys.old at }
    ensures same { result ≡ false → keys.new ≡ keys.old }
{
    if at >= keys.len() {
        return false;
    }
    let empty = EnvironmentKey {
        name: Word::new(Vec::new(alloc)),
        ty: None,
        default: CodeId { number: 0 },
    };
    let (key, changed) = fill_one_key(keys.replace(at, empty), ty);
    keys.set(at, key);
    changed
}

/// Gives a property or an environment key the type, where it has none. Tells whether anything changed.
pub fn fill_table(
    alloc: Global,
    table: &mut Table,
    declaration: Option<usize>,
    at: usize,
    ty: Ty,
) -> bool
    ensures value { table.new ≡ spec.typed_at table.old declaration at ty }
    ensures same { result ≡ false → table.new ≡ table.old }
{
    match declaration {
        Some(declaration) => fill_declared(alloc, &mut table.declarations, declaration, at, ty),
        None => fill_key(alloc, &mut table.environment, at, ty),
    }
}
