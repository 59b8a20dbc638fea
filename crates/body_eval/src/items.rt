ghost use Rattle.std.specs.Prelude.{◌≡◌, [], ◌∷◌, IfOk};
ghost use Rattle.eval_places.specs.Runs.{Can, Does};
ghost use Rattle.identity_path.specs.declared.step.Step.TheVariants as step;
ghost use Rattle.body_means.specs.Elements.{all_led, narrow};
ghost use Rattle.body_means.specs.Items as of_items;
ghost use Rattle.body_parts.specs.Nests.{ItemNests, of};
ghost use Rattle.body_eval.specs.Arms as arms;

use body_modifiers::modifiers_from;
use body_nodes::{all_led, holding, narrow};
use body_parts::{Builder, ItemResult, content, views};
use body_views::view_form;
use core_means::Run;
use eval_forms::{cut, matches, push};
use eval_places::Setting;
use expr_eval::{conditions_to, eval_to};
use identity_path::{Cells, Step};
use std::alloc::{AllocError, Global};
use sv_items::Items;
use sv_value::Value;
use swift_core::{Condition, Core, CoreItem, ItemArm, ItemCase, ModifierCall, ViewCall};
use value_calls::Stop;
use view_nodes::{Element, NodeKind};

// A further local, and no view.
#[tactic(auto, using(core_means::specs::Trees::under_then, eval_places::proofs::Right::right_given, eval_places::proofs::Right::right_answered, eval_places::proofs::Right::right_found), unfolding(core_means::specs::Asks::under, body_means::specs::Items::local_item))]
fn local_item<L: Cells, C: Cells, F>(
    builder: &Builder<'_, L, F>,
    term: &Core,
    run: &mut Run,
    cells: &mut C,
) -> Result<Option<Element>, Stop>
    requires right { Can L.map builder.now.setting.now run.old (C.map cells.old) (of_items.local_item (of builder.now) term.now) }
    ensures does { Does L.map builder.now.setting.now run.old (C.map cells.old) (of_items.local_item (of builder.now) term.now) result run.new (C.map cells.new) }
{
    let value = eval_to(builder.setting, builder.room, term, run, cells)?;
    push(run, value)?;
    Ok(None)
}

// The views of a branch, under its step.
fn branch(alloc: Global, number: usize, views: Items<Element>) -> Result<Items<Element>, AllocError>
    ensures { IfOk result (λ all. all ≡ all_led (step.Branch (narrow number) ∷ []) views) }
{
    let step = Step::Branch(narrow(number));
    let all = all_led(alloc, &step, views);
    drop(step);
    all
}

// The views of a branch, where its conditions hold.
#[tactic(auto, using(core_means::specs::Trees::under_then, eval_places::proofs::Right::right_given, eval_places::proofs::Right::right_answered, eval_places::proofs::Right::right_found), unfolding(core_means::specs::Asks::under, body_means::specs::Items::guarded))]
fn guarded<L, C, F>(
    builder: &Builder<'_, L, F>,
    number: usize,
    conditions: &[Condition],
    items: &[CoreItem],
    run: &mut Run,
    cells: &mut C,
) -> Result<Option<Items<Element>>, Stop>
where
    L: Cells,
    C: Cells,
    F: Fn(&Setting<'_, L>, u32, usize, &CoreItem, &mut Run, &mut C) -> ItemResult,
    requires nests { ItemNests L.map C.map builder.now.room (F.pre builder.now.item) (F.post builder.now.item) }
    requires right { Can L.map builder.now.setting.now run.old (C.map cells.old) (of_items.guarded (of builder.now) number conditions.now items.now) }
    ensures does { Does L.map builder.now.setting.now run.old (C.map cells.old) (of_items.guarded (of builder.now) number conditions.now items.now) result run.new (C.map cells.new) }
{
    if conditions_to(builder.setting, builder.room, conditions, run, cells)? {
        let done = Items::new(builder.setting.alloc);
        let made = views(builder, builder.code, done, items, run, cells)?;
        Ok(Some(branch(builder.setting.alloc, number, made)?))
    } else {
        Ok(None)
    }
}

// The locals of the conditions and of the branch end with it.
#[tactic(auto, using(core_means::specs::Trees::under_then, eval_places::proofs::Right::right_given, eval_places::proofs::Right::right_answered, eval_places::proofs::Right::right_found), unfolding(core_means::specs::Asks::under, body_means::specs::Items::arm, core_means::specs::Means::framed))]
fn arm<L, C, F>(
    builder: &Builder<'_, L, F>,
    number: usize,
    arm: &ItemArm,
    run: &mut Run,
    cells: &mut C,
) -> Result<Option<Items<Element>>, Stop>
where
    L: Cells,
    C: Cells,
    F: Fn(&Setting<'_, L>, u32, usize, &CoreItem, &mut Run, &mut C) -> ItemResult,
    requires nests { ItemNests L.map C.map builder.now.room (F.pre builder.now.item) (F.post builder.now.item) }
    requires right { Can L.map builder.now.setting.now run.old (C.map cells.old) (of_items.arm (of builder.now) number arm.now) }
    ensures does { Does L.map builder.now.setting.now run.old (C.map cells.old) (of_items.arm (of builder.now) number arm.now) result run.new (C.map cells.new) }
{
    let count = run.locals.len();
    let taken = guarded(
        builder,
        number,
        arm.conditions.as_slice(),
        arm.body.as_slice(),
        run,
        cells,
    )?;
    cut(&mut run.locals, count);
    Ok(taken)
}

// The views of a branch, whose locals end with it, under its step.
#[tactic(auto, using(core_means::specs::Trees::under_then, eval_places::proofs::Right::right_given, eval_places::proofs::Right::right_answered, eval_places::proofs::Right::right_found), unfolding(core_means::specs::Asks::under))]
fn branch_views<L, C, F>(
    builder: &Builder<'_, L, F>,
    number: usize,
    items: &[CoreItem],
    run: &mut Run,
    cells: &mut C,
) -> Result<Items<Element>, Stop>
where
    L: Cells,
    C: Cells,
    F: Fn(&Setting<'_, L>, u32, usize, &CoreItem, &mut Run, &mut C) -> ItemResult,
    requires nests { ItemNests L.map C.map builder.now.room (F.pre builder.now.item) (F.post builder.now.item) }
    requires right { Can L.map builder.now.setting.now run.old (C.map cells.old) (arms.branch_views (of builder.now) number items.now) }
    ensures does { Does L.map builder.now.setting.now run.old (C.map cells.old) (arms.branch_views (of builder.now) number items.now) result run.new (C.map cells.new) }
{
    let views = content(builder, items, run, cells)?;
    Ok(branch(builder.setting.alloc, number, views)?)
}

// The last arm, if there is one.
#[tactic(auto, using(core_means::specs::Trees::under_then, eval_places::proofs::Right::right_given, eval_places::proofs::Right::right_answered, eval_places::proofs::Right::right_found), unfolding(core_means::specs::Asks::under))]
fn last_arm<L, C, F>(
    builder: &Builder<'_, L, F>,
    number: usize,
    last: &Option<Items<CoreItem>>,
    run: &mut Run,
    cells: &mut C,
) -> Result<Items<Element>, Stop>
where
    L: Cells,
    C: Cells,
    F: Fn(&Setting<'_, L>, u32, usize, &CoreItem, &mut Run, &mut C) -> ItemResult,
    requires nests { ItemNests L.map C.map builder.now.room (F.pre builder.now.item) (F.post builder.now.item) }
    requires right { Can L.map builder.now.setting.now run.old (C.map cells.old) (of_items.last_arm (of builder.now) number last.now) }
    ensures does { Does L.map builder.now.setting.now run.old (C.map cells.old) (of_items.last_arm (of builder.now) number last.now) result run.new (C.map cells.new) }
{
    match last {
        Some(items) => branch_views(builder, number, items.as_slice(), run, cells),
        None => Ok(Items::new(builder.setting.alloc)),
    }
}

// The first arm whose conditions hold, and else the last one, if there is one.
#[tactic(auto, using(core_means::specs::Trees::under_then, eval_places::proofs::Right::right_given, eval_places::proofs::Right::right_answered, eval_places::proofs::Right::right_found), unfolding(core_means::specs::Asks::under, body_means::specs::Items::arms))]
fn arms<L, C, F>(
    builder: &Builder<'_, L, F>,
    mut rest: &[ItemArm],
    last: &Option<Items<CoreItem>>,
    run: &mut Run,
    cells: &mut C,
) -> Result<Items<Element>, Stop>
where
    L: Cells,
    C: Cells,
    F: Fn(&Setting<'_, L>, u32, usize, &CoreItem, &mut Run, &mut C) -> ItemResult,
    requires nests { ItemNests L.map C.map builder.now.room (F.pre builder.now.item) (F.post builder.now.item) }
    requires right { Can L.map builder.now.setting.now run.old (C.map cells.old) (of_items.arms (of builder.now) 0 rest.now last.now) }
    ensures does { Does L.map builder.now.setting.now run.old (C.map cells.old) (of_items.arms (of builder.now) 0 rest.entry.now last.now) result run.new (C.map cells.new) }
{
    let count = rest.len();
    let mut number: usize = 0;
    while let [first, more @ ..] = rest {
        let taken = arm(builder, number, first, run, cells)?;
        match taken {
            Some(views) => return Ok(views),
            None => rest = more,
        }
        number += 1;
    }
    last_arm(builder, number, last, run, cells)
}

// The first case that the value matches.
#[tactic(auto, using(core_means::specs::Trees::under_then, eval_places::proofs::Right::right_given, eval_places::proofs::Right::right_answered, eval_places::proofs::Right::right_found), unfolding(core_means::specs::Asks::under, body_means::specs::Items::case_of))]
fn case_of<L, C, F>(
    builder: &Builder<'_, L, F>,
    value: &Value,
    mut rest: &[ItemCase],
    run: &mut Run,
    cells: &mut C,
) -> Result<Items<Element>, Stop>
where
    L: Cells,
    C: Cells,
    F: Fn(&Setting<'_, L>, u32, usize, &CoreItem, &mut Run, &mut C) -> ItemResult,
    requires nests { ItemNests L.map C.map builder.now.room (F.pre builder.now.item) (F.post builder.now.item) }
    requires right { Can L.map builder.now.setting.now run.old (C.map cells.old) (of_items.case_of (of builder.now) 0 value.now rest.now) }
    ensures does { Does L.map builder.now.setting.now run.old (C.map cells.old) (of_items.case_of (of builder.now) 0 value.now rest.entry.now) result run.new (C.map cells.new) }
{
    let count = rest.len();
    let mut number: usize = 0;
    while let [case, more @ ..] = rest {
        let is_matched = matches(value, &case.patterns);
        if is_matched {
            return branch_views(builder, number, case.body.as_slice(), run, cells);
        }
        rest = more;
        number += 1;
    }
    unreachable!()
}

// An `if` is a node, also where no branch is taken.
#[tactic(auto, using(core_means::specs::Trees::under_then, eval_places::proofs::Right::right_given, eval_places::proofs::Right::right_answered, eval_places::proofs::Right::right_found), unfolding(core_means::specs::Asks::under, body_means::specs::Items::decision))]
fn decision<L, C, F>(
    builder: &Builder<'_, L, F>,
    firsts: &[ItemArm],
    last: &Option<Items<CoreItem>>,
    run: &mut Run,
    cells: &mut C,
) -> Result<Option<Element>, Stop>
where
    L: Cells,
    C: Cells,
    F: Fn(&Setting<'_, L>, u32, usize, &CoreItem, &mut Run, &mut C) -> ItemResult,
    requires nests { ItemNests L.map C.map builder.now.room (F.pre builder.now.item) (F.post builder.now.item) }
    requires right { Can L.map builder.now.setting.now run.old (C.map cells.old) (of_items.decision (of builder.now) firsts.now last.now) }
    ensures does { Does L.map builder.now.setting.now run.old (C.map cells.old) (of_items.decision (of builder.now) firsts.now last.now) result run.new (C.map cells.new) }
{
    let views = arms(builder, firsts, last, run, cells)?;
    let made = holding(builder.setting, NodeKind::Branches, views, run, cells)?;
    Ok(Some(made))
}

// And so is a `switch`.
#[tactic(auto, using(core_means::specs::Trees::under_then, eval_places::proofs::Right::right_given, eval_places::proofs::Right::right_answered, eval_places::proofs::Right::right_found), unfolding(core_means::specs::Asks::under, body_means::specs::Items::selection))]
fn selection<L, C, F>(
    builder: &Builder<'_, L, F>,
    term: &Core,
    cases: &[ItemCase],
    run: &mut Run,
    cells: &mut C,
) -> Result<Option<Element>, Stop>
where
    L: Cells,
    C: Cells,
    F: Fn(&Setting<'_, L>, u32, usize, &CoreItem, &mut Run, &mut C) -> ItemResult,
    requires nests { ItemNests L.map C.map builder.now.room (F.pre builder.now.item) (F.post builder.now.item) }
    requires right { Can L.map builder.now.setting.now run.old (C.map cells.old) (of_items.selection (of builder.now) term.now cases.now) }
    ensures does { Does L.map builder.now.setting.now run.old (C.map cells.old) (of_items.selection (of builder.now) term.now cases.now) result run.new (C.map cells.new) }
{
    let value = eval_to(builder.setting, builder.room, term, run, cells)?;
    let views = case_of(builder, &value, cases, run, cells)?;
    let made = holding(builder.setting, NodeKind::Branches, views, run, cells)?;
    Ok(Some(made))
}

// A view, and then its modifiers.
#[tactic(auto, using(core_means::specs::Trees::under_then, eval_places::proofs::Right::right_given, eval_places::proofs::Right::right_answered, eval_places::proofs::Right::right_found), unfolding(core_means::specs::Asks::under, body_means::specs::Items::expression))]
fn expression<L, C, F>(
    builder: &Builder<'_, L, F>,
    view: &ViewCall,
    modifiers: &[ModifierCall],
    run: &mut Run,
    cells: &mut C,
) -> Result<Option<Element>, Stop>
where
    L: Cells,
    C: Cells,
    F: Fn(&Setting<'_, L>, u32, usize, &CoreItem, &mut Run, &mut C) -> ItemResult,
    requires nests { ItemNests L.map C.map builder.now.room (F.pre builder.now.item) (F.post builder.now.item) }
    requires right { Can L.map builder.now.setting.now run.old (C.map cells.old) (of_items.expression (of builder.now) view.now modifiers.now) }
    ensures does { Does L.map builder.now.setting.now run.old (C.map cells.old) (of_items.expression (of builder.now) view.now modifiers.now) result run.new (C.map cells.new) }
{
    let made = view_form(builder, view, run, cells)?;
    let made = modifiers_from(builder, made, modifiers, run, cells)?;
    Ok(Some(made))
}

/// The view that an item gives. A `let` gives none.
#[tactic(auto, using(core_means::specs::Trees::under_then, eval_places::proofs::Right::right_given, eval_places::proofs::Right::right_answered, eval_places::proofs::Right::right_found), unfolding(core_means::specs::Asks::under, body_means::specs::Items::item_form))]
pub fn item_form<L, C, F>(
    builder: &Builder<'_, L, F>,
    item: &CoreItem,
    run: &mut Run,
    cells: &mut C,
) -> Result<Option<Element>, Stop>
where
    L: Cells,
    C: Cells,
    F: Fn(&Setting<'_, L>, u32, usize, &CoreItem, &mut Run, &mut C) -> ItemResult,
    requires nests { ItemNests L.map C.map builder.now.room (F.pre builder.now.item) (F.post builder.now.item) }
    requires right { Can L.map builder.now.setting.now run.old (C.map cells.old) (of_items.item_form (of builder.now) item.now) }
    ensures does { Does L.map builder.now.setting.now run.old (C.map cells.old) (of_items.item_form (of builder.now) item.now) result run.new (C.map cells.new) }
{
    match item {
        CoreItem::Local(term) => local_item(builder, term, run, cells),
        CoreItem::If(firsts, last) => decision(builder, firsts.as_slice(), last, run, cells),
        CoreItem::Switch(term, cases) => selection(builder, term, cases.as_slice(), run, cells),
        CoreItem::View(view, modifiers) => expression(
            builder,
            view,
            modifiers.as_slice(),
            run,
            cells,
        ),
    }
}
