ghost use Rattle.std.specs.Prelude.{◌≡◌, option_and_then, slice_get};
ghost use Rattle.std.specs.Option.{option_copied};
ghost use Rattle.swift_core.specs.Typing.{itself_in};
ghost use Rattle.code_tests.specs.Homes.{is_builder, is_default, is_statements, itself_of, itself_of_property, itself_of_views, key_number, owned, place_at, property_view, sign_at, value_view, view_in, view_where, views_of, views_view};

use swift_core::{CodeForm, Declaration, Kind, MemberPlace, Signature, SignatureForm, Table};

/// Whose frame code may use.
#[derive(Clone, Copy)]
pub enum Home {
    /// That of this view.
    View(u32),
    /// None.
    Nowhere,
}

/// A member, with the number of its declaration.
#[derive(Clone, Copy)]
struct Found<'a> {
    owner: u32,
    declaration: &'a Declaration,
    sign: &'a Signature,
}

/// The view whose frame it is.
pub fn view_in(home: Home) -> Option<u32>
    ensures value { result ≡ view_in home }
{
    match home {
        Home::View(number) => Some(number),
        Home::Nowhere => None,
    }
}

/// Where the member or the environment key with this number stands.
fn place_of(table: &Table, number: usize) -> Option<&MemberPlace>
    ensures value { option_copied result ≡ place_at table.now number }
{
    if number == 0 {
        None
    } else {
        table.members.get(number - 1)
    }
}

/// The member whose code has this number.
#[tactic(auto, unfolding(crate::specs::Homes::sign_at))]
fn signature_of(table: &Table, number: usize) -> Option<Found<'_>>
    ensures value { owned result ≡ sign_at table.now number }
{
    let place = place_of(table, number)?;
    let owner = place.declaration?;
    let declaration = table.declarations.get(owner as usize)?;
    let sign = declaration.members.get(place.at as usize)?;
    if sign.code.number == number {
        Some(Found {
            owner,
            declaration,
            sign,
        })
    } else {
        None
    }
}

/// Whether the number is that of the default of this key.
fn is_default_of(table: &Table, key: u32, number: usize) -> bool
    ensures value { result ≡ key_number number (slice_get table.now.environment key) }
{
    match table.environment.get(key as usize) {
        Some(key) => key.default.number == number,
        None => false,
    }
}

/// Whether the number is that of the default of an environment key.
#[tactic(auto, unfolding(crate::specs::Homes::is_default))]
fn is_default(table: &Table, number: usize) -> bool
    ensures value { result ≡ is_default table.now number }
{
    match place_of(table, number) {
        Some(place) => place.declaration.is_none() && is_default_of(table, place.at, number),
        None => number == 0,
    }
}

/// Whose frame the members of a declaration may use, where they have no `self` that is a value.
fn home_in(owner: u32, kind: Kind) -> Option<Home>
    ensures value { views_of result ≡ view_where owner (itself_in kind) }
{
    match kind {
        Kind::View => Some(Home::View(owner)),
        Kind::App => Some(Home::Nowhere),
        Kind::Key(_) => Some(Home::Nowhere),
        Kind::Data(_) => None,
        Kind::Enum(..) => None,
    }
}

/// Whose frame a member that gives a value may use. None for another, and for one with a `self` that is a value.
fn home_of_value(owner: u32, kind: Kind, form: &SignatureForm) -> Option<Home>
    ensures value { views_of result ≡ option_and_then (view_where owner) (itself_of kind form.now) }
{
    match form {
        SignatureForm::Stored(..) => Some(Home::Nowhere),
        SignatureForm::State(..) => Some(Home::Nowhere),
        SignatureForm::Static(_) => Some(Home::Nowhere),
        SignatureForm::Computed(_) => home_in(owner, kind),
        SignatureForm::Function(_, Some(_), false) => home_in(owner, kind),
        SignatureForm::Reduce => Some(Home::Nowhere),
        _ => None,
    }
}

/// Whose frame a property that gives views may use.
fn home_of_property(owner: u32, kind: Kind, form: &SignatureForm) -> Option<Home>
    ensures value { views_of result ≡ option_and_then (view_where owner) (itself_of_property kind form.now) }
{
    match form {
        SignatureForm::BuilderProperty => home_in(owner, kind),
        _ => None,
    }
}

/// Whose frame a member that gives views may use, and its blocks.
fn home_of_views(owner: u32, kind: Kind, form: &SignatureForm) -> Option<Home>
    ensures value { views_of result ≡ option_and_then (view_where owner) (itself_of_views kind form.now) }
{
    match form {
        SignatureForm::BuilderProperty => home_in(owner, kind),
        SignatureForm::BuilderFunction(_) => home_in(owner, kind),
        _ => None,
    }
}

/// Whose frame the code of this number may use, if it gives a value without a `self` of its own.
#[tactic(auto, unfolding(crate::specs::Homes::value_view))]
pub fn value_home(table: &Table, number: usize) -> Option<Home>
    ensures value { views_of result ≡ value_view table.now number }
{
    if is_default(table, number) {
        return Some(Home::Nowhere);
    }
    match signature_of(table, number) {
        Some(found) => home_of_value(found.owner, found.declaration.kind, &found.sign.form),
        None => None,
    }
}

/// Whose frame the code of this number may use, if it is that of a property that gives views.
#[tactic(auto, unfolding(crate::specs::Homes::property_view))]
pub fn property_home(table: &Table, number: usize) -> Option<Home>
    ensures value { views_of result ≡ property_view table.now number }
{
    match signature_of(table, number) {
        Some(found) => home_of_property(found.owner, found.declaration.kind, &found.sign.form),
        None => None,
    }
}

/// Whose frame the blocks of the member of this number may use, if it gives views.
#[tactic(auto, unfolding(crate::specs::Homes::views_view))]
pub fn views_home(table: &Table, number: usize) -> Option<Home>
    ensures value { views_of result ≡ views_view table.now number }
{
    match signature_of(table, number) {
        Some(found) => home_of_views(found.owner, found.declaration.kind, &found.sign.form),
        None => None,
    }
}

/// Whether code is statements.
pub fn is_statements(form: &CodeForm) -> bool
    ensures value { result ≡ is_statements form.now }
{
    match form {
        CodeForm::Statements(_) => true,
        _ => false,
    }
}

/// Whether code gives views.
pub fn is_builder(form: &CodeForm) -> bool
    ensures value { result ≡ is_builder form.now }
{
    match form {
        CodeForm::Builder(_) => true,
        _ => false,
    }
}
