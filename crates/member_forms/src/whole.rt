ghost use Rattle.std.specs.Prelude.{◌≡◌};
ghost use Rattle.member_forms.specs.Whole as whole;

use crate::role::{Role, Sort, role_of};
use swift_ast::{
    EnumItem, EnumPiece, Member, MemberForm, Piece, PieceForm, StructBody, StructPiece,
};
use swift_lex::Word;

/// Whether a name is among the names after a colon.
pub fn is_named(names: &[Word], name: &[u8]) -> bool
    ensures { result ≡ whole.is_named names.now name.now }
{
    names.iter().any(|other| other.is(name))
}

/// What a struct is by the names after its colon.
pub fn sort_of(names: &[Word]) -> Sort
    ensures { result ≡ whole.sort_of names.now }
{
    if is_named(names, b"View") {
        Sort::View
    } else if is_named(names, b"App") {
        Sort::App
    } else if is_named(names, b"PreferenceKey") {
        Sort::Key
    } else {
        Sort::Data
    }
}

/// Whether this name after the colon fits a declaration of this sort.
fn name_fits(sort: Sort, name: &Word) -> bool
    ensures { result ≡ whole.name_fits sort name.now }
{
    match sort {
        Sort::View => name.is(b"View"),
        Sort::App => name.is(b"App"),
        Sort::Key => name.is(b"PreferenceKey"),
        Sort::Data => name.is(b"Identifiable") || name.is(b"Equatable") || name.is(b"Hashable"),
        Sort::Enum => name.is(b"CaseIterable") || name.is(b"Equatable") || name.is(b"Hashable"),
    }
}

fn names_fit(sort: Sort, names: &[Word]) -> bool
    ensures { result ≡ whole.names_fit sort names.now }
{
    names.iter().all(|name| name_fits(sort, name))
}

/// The name of a member.
pub fn member_name(member: &Member) -> &Word
    ensures { result.now ≡ whole.member_name member.now }
{
    match &member.form {
        MemberForm::Stored(_, name, _, _) => name,
        MemberForm::Computed(name, _, _) => name,
        MemberForm::Function(name, _, _, _) => name,
    }
}

fn member_fits(sort: Sort, member: &Member) -> bool
    ensures { result ≡ whole.member_fits sort member.now }
{
    match role_of(sort, member) {
        Role::Unfit => false,
        _ => true,
    }
}

/// Whether a member has this name and is a stored property.
fn is_stored(sort: Sort, member: &Member, name: &[u8]) -> bool
    ensures { result ≡ whole.is_stored sort name.now member.now }
{
    match role_of(sort, member) {
        Role::Stored => member_name(member).is(name),
        _ => false,
    }
}

/// Whether a member is the body of a view or an app.
fn is_body(sort: Sort, member: &Member) -> bool
    ensures { result ≡ whole.is_body sort member.now }
{
    match role_of(sort, member) {
        Role::BuilderProperty => member_name(member).is(b"body"),
        _ => false,
    }
}

fn is_default(member: &Member) -> bool
    ensures { result ≡ whole.is_default member.now }
{
    match role_of(Sort::Key, member) {
        Role::Static => true,
        _ => false,
    }
}

fn is_reduce(member: &Member) -> bool
    ensures { result ≡ whole.is_reduce member.now }
{
    match role_of(Sort::Key, member) {
        Role::Reduce => true,
        _ => false,
    }
}

fn has_id(members: &[Member]) -> bool
    ensures { result ≡ whole.has_id members.now }
{
    members
        .iter()
        .any(|member| is_stored(Sort::Data, member, b"id"))
}

fn has_body(sort: Sort, members: &[Member]) -> bool
    ensures { result ≡ whole.has_body sort members.now }
{
    members.iter().any(|member| is_body(sort, member))
}

fn has_default(members: &[Member]) -> bool
    ensures { result ≡ whole.has_default members.now }
{
    members.iter().any(|member| is_default(member))
}

fn has_reduce(members: &[Member]) -> bool
    ensures { result ≡ whole.has_reduce members.now }
{
    members.iter().any(|member| is_reduce(member))
}

/// Whether no member is missing that a struct of this sort has to have.
fn is_complete(sort: Sort, names: &[Word], members: &[Member]) -> bool
    ensures { result ≡ whole.is_complete sort names.now members.now }
{
    match sort {
        Sort::View => has_body(Sort::View, members),
        Sort::App => has_body(Sort::App, members),
        Sort::Key => has_default(members) && has_reduce(members),
        Sort::Data => !is_named(names, b"Identifiable") || has_id(members),
        Sort::Enum => true,
    }
}

fn members_fit(sort: Sort, members: &[Member]) -> bool
    ensures { result ≡ whole.members_fit sort members.now }
{
    members.iter().all(|member| member_fits(sort, member))
}

fn is_app(sort: Sort) -> bool
    ensures { result ≡ whole.is_app sort }
{
    match sort {
        Sort::App => true,
        _ => false,
    }
}

/// Whether `@main` stands exactly on an app.
fn is_main_fit(is_main: bool, sort: Sort) -> bool
    ensures { result ≡ whole.main_fits sort is_main }
{
    if is_app(sort) { is_main } else { !is_main }
}

/// Whether `@main` stands before the struct exactly where it is an app, and it has a name.
fn head_fits(piece: &StructPiece, sort: Sort) -> bool
    ensures { result ≡ whole.head_fits sort piece.now }
{
    is_main_fit(piece.is_main, sort)
        && !piece.name.is(b"_")
        && names_fit(sort, piece.names.as_slice())
}

fn struct_fits(piece: &StructPiece) -> bool
    ensures { result ≡ whole.struct_fits piece.now }
{
    match &piece.body {
        StructBody::LeftAside => true,
        StructBody::Members(members) => {
            let names = piece.names.as_slice();
            let sort = sort_of(names);
            let members = members.as_slice();
            head_fits(piece, sort)
                && members_fit(sort, members)
                && is_complete(sort, names, members)
        }
    }
}

fn item_fits(item: &EnumItem) -> bool
    ensures { result ≡ whole.item_fits item.now }
{
    match item {
        EnumItem::Cases(_) => true,
        EnumItem::Member(member) => member_fits(Sort::Enum, member),
    }
}

fn items_fit(items: &[EnumItem]) -> bool
    ensures { result ≡ whole.items_fit items.now }
{
    items.iter().all(|item| item_fits(item))
}

fn enum_fits(piece: &EnumPiece) -> bool
    ensures { result ≡ whole.enum_fits piece.now }
{
    !piece.name.is(b"_")
        && names_fit(Sort::Enum, piece.names.as_slice())
        && items_fit(piece.items.as_slice())
}

/// Whether a declaration has a name, the names after its colon fit what it is, each of its members has a form that such a
/// declaration may have, and none is missing. What is left aside and what declares nothing fits.
pub fn declaration_fits(piece: &Piece) -> bool
    ensures { result ≡ whole.declaration_fits piece.now }
{
    match &piece.form {
        PieceForm::Struct(piece) => struct_fits(piece),
        PieceForm::Enum(piece) => enum_fits(piece),
        _ => true,
    }
}
