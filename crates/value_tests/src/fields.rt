ghost use Rattle.std.specs.Prelude.{◌≡◌, ◌<◌, ◌↔◌, [], drop, length, slice_get, IsTrue, OnSome};
ghost use Rattle.std.specs.Option.{option_copied};
ghost use Rattle.swift_core.specs.Context.{inputs_of};
ghost use Rattle.value_tests.specs.Layers.{CaseHas, NoneSkipped, cases_at, data_of, is_input, type_of_input, type_of_member};

use swift_core::{Declaration, Kind, Signature, SignatureForm, Table, Ty};

/// The declaration of this number, where it is a data struct.
pub fn data_of(table: &Table, number: u32) -> Option<&Declaration>
    ensures value { option_copied result ≡ data_of table.now number }
{
    match table.declarations.get(number as usize) {
        Some(declaration) => match declaration.kind {
            Kind::Data(_) => Some(declaration),
            _ => None,
        },
        None => None,
    }
}

/// Whether this case is one of the enum of this number, and the same number names it.
pub fn case_has(table: &Table, named: u32, number: u32, place: u32) -> bool
    ensures value { IsTrue result ↔ CaseHas table.now named number place }
{
    named == number && place < cases_of(table, number)
}

/// The number of cases of an enum, and none where the declaration is none.
fn cases_of(table: &Table, number: u32) -> u32
    ensures value { result ≡ cases_at (slice_get table.now.declarations number) }
{
    match table.declarations.get(number as usize) {
        Some(declaration) => match declaration.kind {
            Kind::Enum(_, cases) => cases,
            _ => 0,
        },
        None => 0,
    }
}

/// Whether a member is a stored property or a binding.
fn is_input(form: &SignatureForm) -> bool
    ensures value { result ≡ is_input form.now }
{
    match form {
        SignatureForm::Stored(..) => true,
        SignatureForm::Binding(..) => true,
        _ => false,
    }
}

/// The type of a stored property or a binding.
fn type_of_input(form: &SignatureForm) -> Option<&Ty>
    ensures value { option_copied result ≡ type_of_input form.now }
{
    match form {
        SignatureForm::Stored(_, _, ty, _) => ty.as_ref(),
        SignatureForm::Binding(_, ty) => ty.as_ref(),
        _ => None,
    }
}

/// The place of the next stored property or binding, or the end.
pub fn next_input(members: &[Signature], from: usize) -> usize
    ensures skipped { inputs_of (drop result members.now) ≡ inputs_of (drop from members.now) }
    ensures stops { NoneSkipped members.now result }
{
    for at in from..members.len() {
        if is_input(&members[at].form) {
            return at;
        }
    }
    members.len()
}

/// The type of the stored property or binding at this place.
pub fn type_at(members: &[Signature], at: usize) -> Option<&Ty>
    ensures value { option_copied result ≡ type_of_member (slice_get members.now at) }
    ensures within { OnSome result (at < length members.now) }
{
    match members.get(at) {
        Some(member) => type_of_input(&member.form),
        None => None,
    }
}

/// Whether no stored property and no binding is left.
#[tactic(auto, using(crate::proofs::Inputs::none_is))]
pub fn none_left(members: &[Signature], from: usize) -> bool
    ensures value { IsTrue result ↔ (inputs_of (drop from members.now) ≡ []) }
{
    next_input(members, from) >= members.len()
}
