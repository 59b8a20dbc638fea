ghost use Rattle.std.specs.Prelude.{◌≡◌, ◌++◌, map, OnOk};
ghost use Rattle.local_changes.specs.Parts.{item_arm_alters, item_case_alters, label_alters, modifier_alters, view_alters};
ghost use Rattle.swift_core.specs.Alters.{all_of, item_alters, items_alter, over_items_alters};

use crate::lists::{
    of_all_cores, of_all_fillings, of_arguments, of_conditions, of_optional, of_over,
};
use crate::terms::{of_core, of_indexes};
use std::alloc::AllocError;
use sv_items::Items;
use swift_core::{CoreItem, ForEachOver, ItemArm, ItemCase, Label, ModifierCall, ViewCall};

/// Adds what each item alters.
#[cycle(items)]
fn of_items(items: &[CoreItem], out: &mut Items<usize>) -> Result<(), AllocError>
    ensures ok { OnOk result (out.new ≡ out.old ++ all_of (map item_alters items.now)) }
{
    for item in items {
        of_item(item, out)?;
    }
    Ok(())
}

/// Adds what the item alters.
#[cycle(items)]
fn of_item(item: &CoreItem, out: &mut Items<usize>) -> Result<(), AllocError>
    ensures ok { OnOk result (out.new ≡ out.old ++ item_alters item.now) }
{
    match item {
        CoreItem::Local(term) => of_core(term, out),
        CoreItem::If(arms, last) => {
            of_arms(arms.as_slice(), out)?;
            match last {
                None => Ok(()),
                Some(body) => of_items(body.as_slice(), out),
            }
        }
        CoreItem::Switch(term, cases) => {
            of_core(term, out)?;
            of_cases(cases.as_slice(), out)
        }
        CoreItem::View(view, modifiers) => {
            of_view(view, out)?;
            of_modifiers(modifiers.as_slice(), out)
        }
    }
}

/// Adds what the arms of an `if` alter.
#[cycle(items)]
fn of_arms(arms: &[ItemArm], out: &mut Items<usize>) -> Result<(), AllocError>
    ensures ok { OnOk result (out.new ≡ out.old ++ all_of (map item_arm_alters arms.now)) }
{
    for arm in arms {
        of_conditions(arm.conditions.as_slice(), out)?;
        of_items(arm.body.as_slice(), out)?;
    }
    Ok(())
}

/// Adds what the cases of a `switch` alter.
#[cycle(items)]
fn of_cases(cases: &[ItemCase], out: &mut Items<usize>) -> Result<(), AllocError>
    ensures ok { OnOk result (out.new ≡ out.old ++ all_of (map item_case_alters cases.now)) }
{
    for case in cases {
        of_items(case.body.as_slice(), out)?;
    }
    Ok(())
}

/// Adds what the view alters.
#[cycle(items)]
fn of_view(view: &ViewCall, out: &mut Items<usize>) -> Result<(), AllocError>
    ensures ok { OnOk result (out.new ≡ out.old ++ view_alters view.now) }
{
    match view {
        ViewCall::Text(term) => of_core(term, out),
        ViewCall::Image(term) => of_core(term, out),
        ViewCall::Button(_, label) => of_label(label, out),
        ViewCall::Toggle(target, label) => {
            of_indexes(target, out)?;
            of_label(label, out)
        }
        ViewCall::Spacer(term) => of_optional(term.as_ref(), out),
        ViewCall::Rectangle => Ok(()),
        ViewCall::Empty => Ok(()),
        ViewCall::Stack(_, _, spacing, items) => {
            of_optional(spacing.as_ref(), out)?;
            of_items(items.as_slice(), out)
        }
        ViewCall::Group(items) => of_items(items.as_slice(), out),
        ViewCall::ForEach(over, items) => {
            of_over_items(over, out)?;
            of_items(items.as_slice(), out)
        }
        ViewCall::Custom(_, fillings) => of_all_fillings(fillings.as_slice(), out),
        ViewCall::Builder(_, arguments) => of_all_cores(arguments.as_slice(), out),
    }
}

/// Adds what a label alters.
#[cycle(items)]
fn of_label(label: &Label, out: &mut Items<usize>) -> Result<(), AllocError>
    ensures ok { OnOk result (out.new ≡ out.old ++ label_alters label.now) }
{
    match label {
        Label::Text(term) => of_core(term, out),
        Label::Content(items) => of_items(items.as_slice(), out),
    }
}

/// Adds what each modifier alters.
#[cycle(items)]
fn of_modifiers(modifiers: &[ModifierCall], out: &mut Items<usize>) -> Result<(), AllocError>
    ensures ok { OnOk result (out.new ≡ out.old ++ all_of (map modifier_alters modifiers.now)) }
{
    for modifier in modifiers {
        of_arguments(modifier.arguments.as_slice(), out)?;
        of_items(modifier.content.as_slice(), out)?;
    }
    Ok(())
}

/// Adds what a `ForEach` goes over alters.
fn of_over_items(over: &ForEachOver, out: &mut Items<usize>) -> Result<(), AllocError>
    ensures ok { OnOk result (out.new ≡ out.old ++ over_items_alters over.now) }
{
    match over {
        ForEachOver::Numbers(over) => of_over(over, out),
        ForEachOver::Values(term, _) => of_core(term, out),
        ForEachOver::Places(target, _) => of_indexes(target, out),
    }
}

/// Adds what the items of a builder alter, one after another.
pub fn of_all_items(items: &[CoreItem], out: &mut Items<usize>) -> Result<(), AllocError>
    ensures ok { OnOk result (out.new ≡ out.old ++ items_alter items.now) }
{
    of_items(items, out)
}
