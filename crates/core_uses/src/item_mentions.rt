ghost use Rattle.std.specs.Prelude.{◌≡◌, ◌++◌, map, OnOk};
ghost use Rattle.std.specs.List.{flat_map};
ghost use Rattle.core_uses.specs.Parts.{item_arm_mentions, item_case_mentions, view_mentions, label_mentions, modifier_mentions};
ghost use Rattle.swift_core.specs.Mentions.{item_mentions, kind_mentions, over_items_mentions, id_mentions, optional_core_mentions, joined};

use crate::core_lists::{of_all_cores, of_all_fillings};
use crate::core_mentions::{of_core, of_target};
use crate::stmt_mentions::{of_conditions, of_optional, of_over};
use std::alloc::AllocError;
use sv_items::Items;
use swift_core::{
    Core, CoreItem, ForEachOver, IdRule, ItemArm, ItemCase, Label, Mention, ModifierCall,
    ModifierKind, ViewCall,
};

/// Adds what each item mentions.
#[cycle(items)]
pub fn of_items(items: &[CoreItem], out: &mut Items<Mention>) -> Result<(), AllocError>
    ensures ok { OnOk result (out.new ≡ out.old ++ joined (map item_mentions items.now)) }
{
    for item in items {
        of_item(item, out)?;
    }
    Ok(())
}

/// Adds what the item mentions.
#[cycle(items)]
fn of_item(item: &CoreItem, out: &mut Items<Mention>) -> Result<(), AllocError>
    ensures ok { OnOk result (out.new ≡ out.old ++ item_mentions item.now) }
{
    match item {
        CoreItem::Local(term) => of_core(term, out),
        CoreItem::If(arms, last) => {
            of_arms(arms.as_slice(), out)?;
            match last {
                None => Ok(()),
                Some(body) => of_items(body.as_slice(), out),
            }
        }
        CoreItem::Switch(term, cases) => {
            of_core(term, out)?;
            of_cases(cases.as_slice(), out)
        }
        CoreItem::View(view, modifiers) => {
            of_view(view, out)?;
            of_modifiers(modifiers.as_slice(), out)
        }
    }
}

/// Adds what the arms of an `if` mention.
#[cycle(items)]
fn of_arms(arms: &[ItemArm], out: &mut Items<Mention>) -> Result<(), AllocError>
    ensures ok { OnOk result (out.new ≡ out.old ++ joined (map item_arm_mentions arms.now)) }
{
    for arm in arms {
        of_conditions(arm.conditions.as_slice(), out)?;
        of_items(arm.body.as_slice(), out)?;
    }
    Ok(())
}

/// Adds what the cases of a `switch` mention.
#[cycle(items)]
fn of_cases(cases: &[ItemCase], out: &mut Items<Mention>) -> Result<(), AllocError>
    ensures ok { OnOk result (out.new ≡ out.old ++ joined (map item_case_mentions cases.now)) }
{
    for case in cases {
        of_items(case.body.as_slice(), out)?;
    }
    Ok(())
}

/// Adds what the view mentions.
#[cycle(items)]
fn of_view(view: &ViewCall, out: &mut Items<Mention>) -> Result<(), AllocError>
    ensures ok { OnOk result (out.new ≡ out.old ++ view_mentions view.now) }
{
    match view {
        ViewCall::Text(term) => of_core(term, out),
        ViewCall::Image(term) => of_core(term, out),
        ViewCall::Button(block, label) => {
            of_label_before(label, out)?;
            out.push(Mention::Block(*block))?;
            of_label_after(label, out)
        }
        ViewCall::Toggle(target, label) => {
            of_label_before(label, out)?;
            of_target(target, out)?;
            of_label_after(label, out)
        }
        ViewCall::Spacer(term) => of_optional(term.as_ref(), out),
        ViewCall::Rectangle => Ok(()),
        ViewCall::Empty => Ok(()),
        ViewCall::Stack(_, _, spacing, items) => {
            of_optional(spacing.as_ref(), out)?;
            of_items(items.as_slice(), out)
        }
        ViewCall::Group(items) => of_items(items.as_slice(), out),
        ViewCall::ForEach(over, items) => {
            of_over_items(over, out)?;
            of_items(items.as_slice(), out)
        }
        ViewCall::Custom(_, fillings) => of_all_fillings(fillings.as_slice(), out),
        ViewCall::Builder(code, arguments) => {
            out.push(Mention::Code(*code))?;
            of_all_cores(arguments.as_slice(), out)
        }
    }
}

/// Adds what a label mentions that stands before the action or the place.
fn of_label_before(label: &Label, out: &mut Items<Mention>) -> Result<(), AllocError>
    ensures ok { OnOk result (out.new ≡ out.old ++ (label_mentions label.now).before) }
{
    match label {
        Label::Text(term) => of_core(term, out),
        Label::Content(_) => Ok(()),
    }
}

/// Adds what a label mentions that stands after the action or the place.
#[cycle(items)]
fn of_label_after(label: &Label, out: &mut Items<Mention>) -> Result<(), AllocError>
    ensures ok { OnOk result (out.new ≡ out.old ++ (label_mentions label.now).after) }
{
    match label {
        Label::Text(_) => Ok(()),
        Label::Content(items) => of_items(items.as_slice(), out),
    }
}

/// Adds what each modifier mentions.
#[cycle(items)]
fn of_modifiers(modifiers: &[ModifierCall], out: &mut Items<Mention>) -> Result<(), AllocError>
    ensures ok { OnOk result (out.new ≡ out.old ++ joined (map modifier_mentions modifiers.now)) }
{
    for modifier in modifiers {
        of_arguments(modifier.arguments.as_slice(), out)?;
        of_kind(&modifier.kind, out)?;
        of_items(modifier.content.as_slice(), out)?;
    }
    Ok(())
}

/// Adds what the arguments that are given mention.
fn of_arguments(arguments: &[Option<Core>], out: &mut Items<Mention>) -> Result<(), AllocError>
    ensures ok { OnOk result (out.new ≡ out.old ++ flat_map optional_core_mentions arguments.now) }
{
    for argument in arguments {
        match argument {
            None => {}
            Some(term) => of_core(term, out)?,
        }
    }
    Ok(())
}

/// Adds the block of a modifier, if it has one.
fn of_kind(kind: &ModifierKind, out: &mut Items<Mention>) -> Result<(), AllocError>
    ensures ok { OnOk result (out.new ≡ out.old ++ kind_mentions kind.now) }
{
    match kind {
        ModifierKind::OverlayReader(_, block) => out.push(Mention::Block(*block)),
        ModifierKind::BackgroundReader(_, block) => out.push(Mention::Block(*block)),
        ModifierKind::OnAppear(block) => out.push(Mention::Block(*block)),
        ModifierKind::OnDisappear(block) => out.push(Mention::Block(*block)),
        ModifierKind::OnChange(block) => out.push(Mention::Block(*block)),
        ModifierKind::OnPreferenceChange(_, block) => out.push(Mention::Block(*block)),
        ModifierKind::OnTapGesture(block) => out.push(Mention::Block(*block)),
        _ => Ok(()),
    }
}

/// Adds what a `ForEach` goes over mentions.
fn of_over_items(over: &ForEachOver, out: &mut Items<Mention>) -> Result<(), AllocError>
    ensures ok { OnOk result (out.new ≡ out.old ++ over_items_mentions over.now) }
{
    match over {
        ForEachOver::Numbers(over) => of_over(over, out),
        ForEachOver::Values(term, rule) => {
            of_core(term, out)?;
            of_id(rule, out)
        }
        ForEachOver::Places(target, rule) => {
            of_target(target, out)?;
            of_id(rule, out)
        }
    }
}

/// Adds the computed property that the ids are, if they are one.
fn of_id(rule: &IdRule, out: &mut Items<Mention>) -> Result<(), AllocError>
    ensures ok { OnOk result (out.new ≡ out.old ++ id_mentions rule.now) }
{
    match rule {
        IdRule::Computed(code) => out.push(Mention::Code(*code)),
        _ => Ok(()),
    }
}
