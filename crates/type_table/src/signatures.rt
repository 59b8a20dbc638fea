ghost use Rattle.std.specs.Prelude.{◌≡◌, ◌+◌, ◌++◌, ◌∷◌, [], length, IfOk, OnOk};
ghost use Rattle.type_table.specs.Signatures as spec;

use crate::forms::{Next, member_form};
use crate::number::{after, next_if, wide_after};
use member_forms::{Role, Sort, member_name, role_of};
use std::alloc::{AllocError, Global};
use sv_items::Items;
use swift_ast::{CaseName, EnumItem, Member};
use swift_core::{CodeId, Signature, SignatureForm, Table};
use swift_lex::Word;

/// Adds a member whose code has the number that comes so many after `first` as there are members.
fn add(
    alloc: Global,
    out: &mut Items<Signature>,
    first: usize,
    name: &Word,
    form: SignatureForm,
) -> Result<(), AllocError>
    ensures ok { OnOk result (out.new ≡ out.old ++ spec.signature_at first (length out.old) name.now form ∷ []) }
{
    let number = wide_after(first, out.len());
    out.push(Signature {
        name: name.copy(alloc)?,
        code: CodeId { number },
        form,
    })
}

fn is_input(role: Role) -> bool
    ensures { result ≡ spec.is_input_role role }
{
    match role {
        Role::Stored | Role::Binding => true,
        _ => false,
    }
}

fn is_slot(role: Role) -> bool
    ensures { result ≡ spec.is_slot_role role }
{
    match role {
        Role::State => true,
        _ => false,
    }
}

/// The members of a struct.
#[tactic(auto, using(crate::proofs::Members::struct_start, crate::proofs::Members::struct_turn, crate::proofs::Members::inputs_turn, crate::proofs::Members::slots_turn, crate::proofs::Members::struct_end))]
pub fn struct_signatures(
    alloc: Global,
    heads: &Table,
    sort: Sort,
    first: usize,
    members: &[Member],
) -> Result<Items<Signature>, AllocError>
    ensures { IfOk result (λ s. s ≡ spec.signatures first (spec.struct_drafts heads.now sort members.now)) }
{
    let mut out = Items::new(alloc);
    let mut inputs = 0;
    let mut slots = 0;
    for member in members {
        let role = role_of(sort, member);
        let form = member_form(alloc, heads, Next { inputs, slots }, role, member)?;
        add(alloc, &mut out, first, member_name(member), form)?;
        inputs = next_if(inputs, is_input(role));
        slots = next_if(slots, is_slot(role));
    }
    Ok(out)
}

/// Adds the cases of a line, where so many cases stand before it.
#[tactic(auto, using(crate::proofs::Members::cases_start, crate::proofs::Members::cases_turn, crate::proofs::Members::cases_end))]
fn add_cases(
    alloc: Global,
    out: &mut Items<Signature>,
    first: usize,
    cases: u32,
    names: &[CaseName],
) -> Result<(), AllocError>
    ensures ok { OnOk result (out.new ≡ spec.more_signatures first out.old (spec.case_drafts cases names.now)) }
{
    for (at, case) in names.iter().enumerate() {
        let form = SignatureForm::Case(after(cases, at));
        add(alloc, out, first, &case.name, form)?;
    }
    Ok(())
}

/// How many cases stand on a line.
pub fn item_cases(item: &EnumItem) -> usize
    ensures { result ≡ spec.item_cases item.now }
{
    match item {
        EnumItem::Cases(names) => names.len(),
        EnumItem::Member(_) => 0,
    }
}

/// How many cases the lines have.
#[tactic(auto, using(crate::proofs::Members::case_count_start, crate::proofs::Members::case_count_turn, crate::proofs::Members::case_count_end))]
pub fn case_count(items: &[EnumItem]) -> u32
    ensures { result ≡ spec.case_count items.now }
{
    let mut count = 0;
    for item in items {
        count = after(count, item_cases(item));
    }
    count
}

/// Adds what a line of an enum declares, where so many cases stand before it.
fn add_item(
    alloc: Global,
    heads: &Table,
    out: &mut Items<Signature>,
    first: usize,
    cases: u32,
    item: &EnumItem,
) -> Result<(), AllocError>
    ensures ok { OnOk result (out.new ≡ spec.more_signatures first out.old (spec.item_drafts heads.now cases item.now)) }
{
    match item {
        EnumItem::Cases(names) => add_cases(alloc, out, first, cases, names.as_slice()),
        EnumItem::Member(member) => {
            let role = role_of(Sort::Enum, member);
            let form = member_form(
                alloc,
                heads,
                Next {
                    inputs: 0,
                    slots: 0,
                },
                role,
                member,
            )?;
            add(alloc, out, first, member_name(member), form)
        }
    }
}

/// The cases and members of an enum.
#[tactic(auto, using(crate::proofs::Members::enum_start, crate::proofs::Members::enum_turn, crate::proofs::Members::case_count_start, crate::proofs::Members::case_count_turn, crate::proofs::Members::enum_end))]
pub fn enum_signatures(
    alloc: Global,
    heads: &Table,
    first: usize,
    items: &[EnumItem],
) -> Result<Items<Signature>, AllocError>
    ensures { IfOk result (λ s. s ≡ spec.signatures first (spec.enum_drafts heads.now items.now)) }
{
    let mut out = Items::new(alloc);
    let mut cases = 0;
    for item in items {
        add_item(alloc, heads, &mut out, first, cases, item)?;
        cases = after(cases, item_cases(item));
    }
    Ok(out)
}
