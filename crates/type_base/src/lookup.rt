ghost use Rattle.std.specs.Prelude.{◌≡◌};
ghost use Rattle.type_base.specs.Context.{seen, last_at};
ghost use Rattle.type_base.specs.Names.{Found, is_named, local_of, declaration_of, member_of, owner_of, own_of, is_new, is_data};

use crate::scope::{Local, Scope};
use swift_core::{Declaration, Kind, Signature, Table};

/// The innermost local of the name.
#[tactic(auto, using(crate::specs::Innermosts::last_found, crate::specs::Innermosts::last_passed))]
fn last_local<'a>(locals: &'a [Local], name: &[u8]) -> Option<(usize, &'a Local)>
    ensures found { Found result (last_at (is_named name.now) locals.now) }
{
    let mut at = locals.len();
    while at > 0 {
        at -= 1;
        if locals[at].name.is(name) {
            return Some((at, &locals[at]));
        }
    }
    None
}

/// The innermost local of this name, and its place among the locals. `_` names none.
#[tactic(auto, unfolding(crate::specs::Names::local_of, crate::specs::Names::underscore))]
pub fn find_local<'a>(scope: &'a Scope<'_>, name: &[u8]) -> Option<(usize, &'a Local)>
    ensures found { Found result (local_of name.now (seen scope.now)) }
{
    if name == b"_".as_slice() {
        return None;
    }
    last_local(scope.locals.as_slice(), name)
}

/// Whether no local of the innermost scope has the name. `_` is always new.
#[tactic(auto, unfolding(crate::specs::Names::is_new, crate::specs::Names::underscore))]
pub fn is_new(scope: &Scope<'_>, name: &[u8]) -> bool
    ensures value { result ≡ is_new name.now (seen scope.now) }
{
    if name == b"_".as_slice() {
        return true;
    }
    match last_local(scope.locals.as_slice(), name) {
        Some((at, _)) => at < scope.floor,
        None => true,
    }
}

/// The declaration of this name, and its number.
#[tactic(auto, unfolding(crate::specs::Names::declaration_of, crate::specs::Claims::and_then))]
pub fn find_declaration<'a>(table: &'a Table, name: &[u8]) -> Option<(u32, &'a Declaration)>
    ensures found { Found result (declaration_of name.now table.now) }
{
    match table.names.get(name) {
        Some(number) => match table.declarations.get(number as usize) {
            Some(declaration) => Some((number, declaration)),
            None => None,
        },
        None => None,
    }
}

/// The member of this name, and its place among the members.
#[tactic(auto, unfolding(crate::specs::Names::member_of, crate::specs::Claims::and_then))]
pub fn find_member<'a>(declaration: &'a Declaration, name: &[u8]) -> Option<(u32, &'a Signature)>
    ensures found { Found result (member_of name.now declaration.now) }
{
    match declaration.names.get(name) {
        Some(place) => match declaration.members.get(place as usize) {
            Some(member) => Some((place, member)),
            None => None,
        },
        None => None,
    }
}

/// The declaration whose member the code belongs to, and its number.
#[tactic(auto, unfolding(crate::specs::Names::owner_of, crate::specs::Claims::and_then))]
pub fn owner<'a>(scope: &'a Scope<'_>) -> Option<(u32, &'a Declaration)>
    ensures found { Found result (owner_of (seen scope.now)) }
{
    match scope.owner {
        Some(number) => match scope.table.declarations.get(number as usize) {
            Some(declaration) => Some((number, declaration)),
            None => None,
        },
        None => None,
    }
}

/// The member of `self` of this name, and its place among the members.
#[tactic(auto, unfolding(crate::specs::Names::own_of, crate::specs::Claims::and_then))]
pub fn find_own<'a>(scope: &'a Scope<'_>, name: &[u8]) -> Option<(u32, &'a Signature)>
    ensures found { Found result (own_of name.now (seen scope.now)) }
{
    match owner(scope) {
        Some((_, declaration)) => find_member(declaration, name),
        None => None,
    }
}

/// Whether values of the declaration are data: it is a data struct or an enum.
pub fn is_data(kind: Kind) -> bool
    ensures value { result ≡ is_data kind }
{
    match kind {
        Kind::Data(_) | Kind::Enum(_, _) => true,
        Kind::View | Kind::App | Kind::Key(_) => false,
    }
}
