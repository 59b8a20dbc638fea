ghost use Rattle.std.specs.Prelude.{◌≡◌, [], Some, IsSome, IfOk};
ghost use Rattle.body_means.specs.Customs as customs;
ghost use Rattle.body_nodes.specs.Shapes.{filled_of};

use identity_path::{Input, Inputs};
use std::alloc::{AllocError, Global};
use sv_items::Items;
use sv_value::Values;
use swift_core::{CodeId, Declaration, Signature, SignatureForm, UnitId};
use view_nodes::Custom;

/// The stored properties and bindings by their places, and the initial values of the slots by theirs.
#[derive(Drop)]
pub struct Filled {
    pub inputs: Inputs,
    pub initials: Values,
}

// Of what an initialiser fills, whether it is a state slot.
fn slot_kind(form: &SignatureForm) -> Option<bool>
    ensures { result ≡ customs.slot_kind form.now }
{
    match form {
        SignatureForm::Stored(_, _, _, _) => Some(false),
        SignatureForm::Binding(_, _) => Some(false),
        SignatureForm::State(_, _, _) => Some(true),
        SignatureForm::Environment(_) => None,
        SignatureForm::Static(_) => None,
        SignatureForm::Case(_) => None,
        SignatureForm::Computed(_) => None,
        SignatureForm::Function(_, _, _) => None,
        SignatureForm::BuilderProperty => None,
        SignatureForm::BuilderFunction(_) => None,
        SignatureForm::Reduce => None,
        SignatureForm::Unfit => None,
    }
}

fn slot_kinds(alloc: Global, members: &[Signature]) -> Result<Vec<bool>, AllocError>
    ensures { IfOk result (λ kinds. kinds.items ≡ customs.slot_kinds members.now) }
{
    members
        .iter()
        .filter_map(|member| slot_kind(&member.form))
        .collect(alloc)
}

// Adds what fills a property, a binding or a slot.
fn with_part(
    alloc: Global,
    is_slot: bool,
    input: &Input,
    filled: Filled,
) -> Result<Filled, AllocError>
    requires { IsSome (customs.with_part is_slot input.now (filled_of filled)) }
    ensures { IfOk result (λ more. customs.with_part is_slot input.now (filled_of filled) ≡ Some (filled_of more)) }
{
    let Filled {
        mut inputs,
        mut initials,
    } = filled;
    if is_slot {
        match input {
            Input::Value(value) => {
                let copy = value.copy(alloc)?;
                initials.push(copy)?;
                Ok(Filled { inputs, initials })
            }
            Input::Place(_) => unreachable!(),
        }
    } else {
        let copy = input.copy(alloc)?;
        inputs.push(copy)?;
        Ok(Filled { inputs, initials })
    }
}

// What fills the properties and bindings, and what fills the slots.
#[tactic(auto, using(crate::proofs::Parted::parted_end), unfolding(body_means::specs::Customs::parted_from))]
fn parted(
    alloc: Global,
    mut filled: Filled,
    mut kinds: &[bool],
    mut rest: &[Input],
) -> Result<Filled, AllocError>
    requires { IsSome (customs.parted_from (filled_of filled) kinds.now rest.now) }
    ensures { IfOk result (λ all. customs.parted_from (filled_of filled) kinds.entry.now rest.entry.now ≡ Some (filled_of all)) }
{
    while let [is_slot, further @ ..] = kinds {
        let [input, more @ ..] = rest else {
            unreachable!()
        };
        let added = with_part(alloc, *is_slot, input, filled)?;
        filled = added;
        kinds = further;
        rest = more;
    }
    Ok(filled)
}

// Nothing is filled.
fn no_parts(alloc: Global) -> Filled
    ensures { filled_of result ≡ record { inputs = []; initials = [] } }
{
    let inputs = Items::new(alloc);
    let initials = Items::new(alloc);
    Filled { inputs, initials }
}

// What fills a view, parted by what its members are.
fn parts_of(alloc: Global, members: &[Signature], inputs: &[Input]) -> Result<Filled, AllocError>
    requires { IsSome (customs.parted_from (record { inputs = []; initials = [] }) (customs.slot_kinds members.now) inputs.now) }
    ensures { IfOk result (λ all. customs.parted_from (record { inputs = []; initials = [] }) (customs.slot_kinds members.now) inputs.now ≡ Some (filled_of all)) }
{
    let kinds = slot_kinds(alloc, members)?;
    let parts = parted(alloc, no_parts(alloc), kinds.as_slice(), inputs)?;
    Ok(parts)
}

// The code of the body of a view.
fn body_of(declaration: &Declaration) -> Option<CodeId>
    ensures { result ≡ customs.body_of declaration.now }
{
    match declaration.names.get(b"body".as_slice()) {
        Some(at) => match declaration.members.get(at as usize) {
            Some(member) => Some(member.code),
            None => None,
        },
        None => None,
    }
}

/// The use of a view, by what fills what its initialiser takes, in order.
#[tactic(auto, using(crate::proofs::Parted::has_code, crate::proofs::Parted::has_parts))]
pub fn custom_of(
    alloc: Global,
    declaration: &Declaration,
    inputs: &[Input],
) -> Result<Custom, AllocError>
    requires there { IsSome (customs.custom_of declaration.now inputs.now) }
    ensures value { IfOk result (λ made. customs.custom_of declaration.now inputs.now ≡ Some made) }
{
    match body_of(declaration) {
        Some(code) => {
            let members = declaration.members.as_slice();
            let Filled {
                inputs: filled,
                initials,
            } = parts_of(alloc, members, inputs)?;
            Ok(Custom {
                unit: UnitId {
                    number: code.number,
                },
                inputs: filled,
                initials,
            })
        }
        None => unreachable!(),
    }
}
