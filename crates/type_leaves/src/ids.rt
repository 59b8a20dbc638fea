//! What tells the elements of a ForEach apart.
#![tactic(auto, unfolding(type_base::specs::Claims::and_then))]

ghost use Rattle.std.specs.Prelude.{◌≡◌, codes, option_copied};
ghost use Rattle.swift_core.specs.declared.ty.Ty.{out-Ty};
ghost use Rattle.type_base.specs.Rules.{Answers};
ghost use Rattle.view_rules.specs.Forms as forms;

use swift_ast::Selector;
use swift_core::{CodeId, Declaration, ForEachOver, IdRule, Kind, Over, SignatureForm, Table, Ty};
use type_base::{Fault, find_member};
use value_calls::Property;

fn id_by(form: &SignatureForm, code: CodeId) -> Option<IdRule>
    ensures value { result ≡ forms.id_by form.now code }
{
    match form {
        SignatureForm::Stored(at, _, Some(_), _) => Some(IdRule::Field(*at)),
        SignatureForm::Computed(Some(_)) => Some(IdRule::Computed(code)),
        _ => None,
    }
}

fn text_id(w: &[u8]) -> Option<IdRule>
    ensures value { result ≡ forms.text_id w.now }
{
    if w == b"count".as_slice() {
        Some(IdRule::Look(Property::Count))
    } else if w == b"isEmpty".as_slice() {
        Some(IdRule::Look(Property::IsEmpty))
    } else {
        None
    }
}

fn list_id(w: &[u8]) -> Option<IdRule>
    ensures value { result ≡ forms.list_id w.now }
{
    if w == b"first".as_slice() {
        Some(IdRule::Look(Property::First))
    } else if w == b"last".as_slice() {
        Some(IdRule::Look(Property::Last))
    } else {
        text_id(w)
    }
}

fn member_id(declaration: &Declaration, w: &[u8]) -> Option<IdRule>
    ensures value { result ≡ forms.member_id declaration.now w.now }
{
    match find_member(declaration, w) {
        Some((_, member)) => id_by(&member.form, member.code),
        None => None,
    }
}

fn id_at(table: &Table, w: &[u8], ty: &Ty) -> Option<IdRule>
    ensures value { result ≡ forms.id_at table.now w.now (out-Ty ty.now) }
{
    match ty {
        Ty::Text => text_id(w),
        Ty::List(_) => list_id(w),
        Ty::Named(d) => match table.declarations.get(*d as usize) {
            Some(declaration) => member_id(declaration, w),
            None => None,
        },
        _ => None,
    }
}

fn identifies(kind: Kind) -> bool
    ensures value { result ≡ forms.identifies kind }
{
    match kind {
        Kind::Data(identifiable) => identifiable,
        _ => false,
    }
}

fn own_id_at(table: &Table, ty: &Ty) -> Option<IdRule>
    ensures value { result ≡ forms.own_id_at table.now (out-Ty ty.now) }
{
    match ty {
        Ty::Named(d) => match table.declarations.get(*d as usize) {
            Some(declaration) => {
                if identifies(declaration.kind) {
                    member_id(declaration, b"id")
                } else {
                    None
                }
            }
            None => None,
        },
        _ => None,
    }
}

/// What tells the elements of this type apart: what is written behind `id:`, and else the `id` of an Identifiable.
#[tactic(auto, unfolding(view_rules::specs::Forms::id_rule))]
pub fn id_rule(table: &Table, ty: &Ty, id: Option<&Selector>) -> Option<IdRule>
    ensures value { result ≡ forms.id_rule table.now ty.now (option_copied id.entry) }
{
    match id {
        None => own_id_at(table, ty),
        Some(Selector::Itself) => Some(IdRule::Itself),
        Some(Selector::Name(w)) => id_at(table, w.as_bytes(), ty),
    }
}

fn is_own(id: Option<&Selector>) -> bool
    ensures value { result ≡ forms.is_own (option_copied id.entry) }
{
    match id {
        None => true,
        Some(Selector::Itself) => true,
        Some(Selector::Name(_)) => false,
    }
}

fn is_written(id: Option<&Selector>) -> bool
    ensures value { result ≡ forms.is_written (option_copied id.entry) }
{
    match id {
        None => false,
        Some(Selector::Itself) => true,
        Some(Selector::Name(_)) => false,
    }
}

/// What a ForEach goes over, and how its elements are told apart.
#[tactic(auto, unfolding(type_base::specs::Claims::and_then, view_rules::specs::Forms::each_over))]
pub fn each_over(
    table: &Table,
    over: Over,
    ty: &Ty,
    id: Option<&Selector>,
) -> Result<ForEachOver, Fault>
    ensures found { Answers result (forms.each_over table.now over ty.now (option_copied id.entry)) }
{
    match over {
        Over::UpTo(first, end) => {
            if is_own(id) {
                Ok(ForEachOver::Numbers(Over::UpTo(first, end)))
            } else {
                Err(Fault::NotTyped)
            }
        }
        Over::Indices(list) => {
            if is_own(id) {
                Ok(ForEachOver::Numbers(Over::Indices(list)))
            } else {
                Err(Fault::NotTyped)
            }
        }
        Over::Through(first, last) => {
            if is_written(id) {
                Ok(ForEachOver::Numbers(Over::Through(first, last)))
            } else {
                Err(Fault::NotTyped)
            }
        }
        Over::List(list) => match id_rule(table, ty, id) {
            Some(rule) => Ok(ForEachOver::Values(list, rule)),
            None => Err(Fault::NotTyped),
        },
    }
}
