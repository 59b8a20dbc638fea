ghost use Rattle.std.specs.Prelude.{◌≡◌, [], ◌∷◌, Some, IsSome, IfOk};
ghost use Rattle.eval_places.specs.Runs.{Can, Does};
ghost use Rattle.identity_path.specs.declared.step.Step.TheVariants as step;
ghost use Rattle.view_nodes.specs.Guides.{checked};
ghost use Rattle.body_means.specs.Elements as elements;
ghost use Rattle.body_means.specs.Modified as of_modifiers;
ghost use Rattle.body_parts.specs.Nests.{ItemNests, of};
ghost use Rattle.body_modifiers.specs.Makings.{made_by};
ghost use Rattle.body_modifiers.specs.Stands.{standing_of};

use crate::arguments::{numbers_in, only_value, truths_in, values_in};
use crate::makes::{Makes, makes_of};
use align_guides::{GuideExpr, GuideKind};
use body_nodes::{all_led, block_at, captured, led, modifier, reader};
use body_parts::{Builder, ItemResult, content, handler};
use body_views::one;
use core_means::Run;
use eval_places::Setting;
use expr_eval::eval_to;
use identity_path::{Cells, Input, Inputs, Step};
use std::alloc::{AllocError, Global};
use sv_items::Items;
use sv_value::Value;
use swift_core::{BlockId, Core, CoreItem, ModifierCall, ModifierKind as CallKind, UnitId};
use value_calls::Stop;
use view_nodes::{Element, Guide, Handler, Modifier, ModifierKind, Reader, ReaderKind};

/// Where a modifier stands.
#[derive(Drop)]
pub struct Standing {
    /// The content that it has.
    pub wrapped: Element,
    /// Its number on the view expression, counted from the inside, from 0.
    pub number: u32,
    /// Its number among the decorations there.
    pub decoration: u32,
}

// A modifier of a kind that holds these inputs.
fn with_inputs(
    alloc: Global,
    kind: &ModifierKind,
    number: u32,
    inputs: Inputs,
) -> Result<Modifier, AllocError>
    ensures { IfOk result (λ made. made ≡ record { kind = kind.now; number = number; inputs = inputs; numbers = []; blocks = [] }) }
{
    Ok(Modifier {
        kind: kind.copy(alloc)?,
        number,
        inputs,
        numbers: Items::new(alloc),
        blocks: Items::new(alloc),
    })
}

// A modifier of a kind that holds these numbers.
fn with_only_numbers(
    alloc: Global,
    kind: &ModifierKind,
    number: u32,
    numbers: Items<Option<i64>>,
) -> Result<Modifier, AllocError>
    ensures { IfOk result (λ made. made ≡ record { kind = kind.now; number = number; inputs = []; numbers = numbers; blocks = [] }) }
{
    Ok(Modifier {
        kind: kind.copy(alloc)?,
        number,
        inputs: Items::new(alloc),
        numbers,
        blocks: Items::new(alloc),
    })
}

// A modifier of a kind that holds these inputs and this block.
fn acting(
    alloc: Global,
    kind: &ModifierKind,
    number: u32,
    inputs: Inputs,
    action: Handler,
) -> Result<Modifier, AllocError>
    ensures { IfOk result (λ made. made ≡ record { kind = kind.now; number = number; inputs = inputs; numbers = []; blocks = action ∷ [] }) }
{
    let blocks = one(alloc, action)?;
    Ok(Modifier {
        kind: kind.copy(alloc)?,
        number,
        inputs,
        numbers: Items::new(alloc),
        blocks,
    })
}

// Only numbers, each given or left out.
#[tactic(auto, using(core_means::specs::Trees::under_then, eval_places::proofs::Right::right_given, eval_places::proofs::Right::right_answered, eval_places::proofs::Right::right_found), unfolding(core_means::specs::Asks::under, body_means::specs::Modified::with_numbers))]
fn with_numbers<L: Cells, C: Cells, F>(
    builder: &Builder<'_, L, F>,
    standing: Standing,
    kind: &ModifierKind,
    given: &[Option<Value>],
    run: &mut Run,
    cells: &mut C,
) -> Result<Element, Stop>
    requires right { Can L.map builder.now.setting.now run.old (C.map cells.old) (of_modifiers.with_numbers (of builder.now) (standing_of standing) kind.now given.now) }
    ensures does { Does L.map builder.now.setting.now run.old (C.map cells.old) (of_modifiers.with_numbers (of builder.now) (standing_of standing) kind.now given.now) result run.new (C.map cells.new) }
{
    let alloc = builder.setting.alloc;
    let Standing {
        wrapped,
        number,
        ..
    } = standing;
    let numbers = numbers_in(alloc, given)?;
    let parts = one(alloc, wrapped)?;
    let made = with_only_numbers(alloc, kind, number, numbers)?;
    modifier(builder.setting, made, parts, run, cells)
}

// Only truth values. What is left out is true.
#[tactic(auto, using(core_means::specs::Trees::under_then, eval_places::proofs::Right::right_given, eval_places::proofs::Right::right_answered, eval_places::proofs::Right::right_found), unfolding(core_means::specs::Asks::under, body_means::specs::Modified::with_truths))]
fn with_truths<L: Cells, C: Cells, F>(
    builder: &Builder<'_, L, F>,
    standing: Standing,
    kind: &ModifierKind,
    given: &[Option<Value>],
    run: &mut Run,
    cells: &mut C,
) -> Result<Element, Stop>
    requires right { Can L.map builder.now.setting.now run.old (C.map cells.old) (of_modifiers.with_truths (of builder.now) (standing_of standing) kind.now given.now) }
    ensures does { Does L.map builder.now.setting.now run.old (C.map cells.old) (of_modifiers.with_truths (of builder.now) (standing_of standing) kind.now given.now) result run.new (C.map cells.new) }
{
    let alloc = builder.setting.alloc;
    let Standing {
        wrapped,
        number,
        ..
    } = standing;
    let inputs = truths_in(alloc, given)?;
    let parts = one(alloc, wrapped)?;
    let made = with_inputs(alloc, kind, number, inputs)?;
    modifier(builder.setting, made, parts, run, cells)
}

// One value.
#[tactic(auto, using(core_means::specs::Trees::under_then, eval_places::proofs::Right::right_given, eval_places::proofs::Right::right_answered, eval_places::proofs::Right::right_found), unfolding(core_means::specs::Asks::under, body_means::specs::Modified::with_value))]
fn with_value<L: Cells, C: Cells, F>(
    builder: &Builder<'_, L, F>,
    standing: Standing,
    kind: &ModifierKind,
    given: &[Option<Value>],
    run: &mut Run,
    cells: &mut C,
) -> Result<Element, Stop>
    requires right { Can L.map builder.now.setting.now run.old (C.map cells.old) (of_modifiers.with_value (of builder.now) (standing_of standing) kind.now given.now) }
    ensures does { Does L.map builder.now.setting.now run.old (C.map cells.old) (of_modifiers.with_value (of builder.now) (standing_of standing) kind.now given.now) result run.new (C.map cells.new) }
{
    let alloc = builder.setting.alloc;
    let Standing {
        wrapped,
        number,
        ..
    } = standing;
    let inputs = values_in(alloc, given)?;
    let parts = one(alloc, wrapped)?;
    let made = with_inputs(alloc, kind, number, inputs)?;
    modifier(builder.setting, made, parts, run, cells)
}

// The content, under an id.
fn under_id(alloc: Global, id: &Value, wrapped: Element) -> Result<Items<Element>, AllocError>
    ensures { IfOk result (λ parts. parts ≡ elements.led (step.Id id.now ∷ []) wrapped ∷ []) }
{
    let step = Step::Id(id.copy(alloc)?);
    one(alloc, led(alloc, step, wrapped)?)
}

// The modifier that holds an id.
fn identifying(alloc: Global, number: u32, inputs: Inputs) -> Modifier
    ensures { result ≡ record { kind = ModifierKind.Id; number = number; inputs = inputs; numbers = []; blocks = [] } }
{
    Modifier {
        kind: ModifierKind::Id,
        number,
        inputs,
        numbers: Items::new(alloc),
        blocks: Items::new(alloc),
    }
}

// `.id(v)`: the content stands under the id.
#[tactic(auto, using(core_means::specs::Trees::under_then, eval_places::proofs::Right::right_given, eval_places::proofs::Right::right_answered, eval_places::proofs::Right::right_found), unfolding(core_means::specs::Asks::under, body_means::specs::Modified::with_id))]
fn with_id<L: Cells, C: Cells, F>(
    builder: &Builder<'_, L, F>,
    standing: Standing,
    given: &[Option<Value>],
    run: &mut Run,
    cells: &mut C,
) -> Result<Element, Stop>
    requires right { Can L.map builder.now.setting.now run.old (C.map cells.old) (of_modifiers.with_id (of builder.now) (standing_of standing) given.now) }
    ensures does { Does L.map builder.now.setting.now run.old (C.map cells.old) (of_modifiers.with_id (of builder.now) (standing_of standing) given.now) result run.new (C.map cells.new) }
{
    let alloc = builder.setting.alloc;
    let Standing {
        wrapped,
        number,
        ..
    } = standing;
    let id = only_value(given);
    let inputs = one(alloc, Input::Value(id.copy(alloc)?))?;
    let parts = under_id(alloc, id, wrapped)?;
    let made = identifying(alloc, number, inputs);
    modifier(builder.setting, made, parts, run, cells)
}

// A guide divides by no zero.
fn guide_of(alloc: Global, expr: &GuideExpr) -> Result<Guide, AllocError>
    requires { IsSome (checked expr.now) }
    ensures { IfOk result (λ guide. checked expr.now ≡ Some guide) }
{
    let copy = expr.copy(alloc)?;
    match Guide::new(copy) {
        Some(guide) => Ok(guide),
        None => unreachable!(),
    }
}

fn guiding(alloc: Global, kind: GuideKind, number: u32, guide: Guide) -> Modifier
    ensures { result ≡ record { kind = ModifierKind.AlignmentGuide kind guide; number = number; inputs = []; numbers = []; blocks = [] } }
{
    Modifier {
        kind: ModifierKind::AlignmentGuide(kind, guide),
        number,
        inputs: Items::new(alloc),
        numbers: Items::new(alloc),
        blocks: Items::new(alloc),
    }
}

#[tactic(auto, using(core_means::specs::Trees::under_then, eval_places::proofs::Right::right_given, eval_places::proofs::Right::right_answered, eval_places::proofs::Right::right_found), unfolding(core_means::specs::Asks::under, body_means::specs::Modified::with_guide))]
fn with_guide<L: Cells, C: Cells, F>(
    builder: &Builder<'_, L, F>,
    standing: Standing,
    kind: GuideKind,
    expr: &GuideExpr,
    run: &mut Run,
    cells: &mut C,
) -> Result<Element, Stop>
    requires right { Can L.map builder.now.setting.now run.old (C.map cells.old) (of_modifiers.with_guide (of builder.now) (standing_of standing) kind expr.now) }
    ensures does { Does L.map builder.now.setting.now run.old (C.map cells.old) (of_modifiers.with_guide (of builder.now) (standing_of standing) kind expr.now) result run.new (C.map cells.new) }
{
    let alloc = builder.setting.alloc;
    let Standing {
        wrapped,
        number,
        ..
    } = standing;
    let guide = guide_of(alloc, expr)?;
    let parts = one(alloc, wrapped)?;
    let made = guiding(alloc, kind, number, guide);
    modifier(builder.setting, made, parts, run, cells)
}

// The content of a decoration, and behind it the views, under its step.
fn behind(
    alloc: Global,
    wrapped: Element,
    step: &Step,
    views: Items<Element>,
) -> Result<Items<Element>, AllocError>
    ensures { IfOk result (λ parts. parts ≡ wrapped ∷ elements.all_led (step.now ∷ []) views) }
{
    let views = all_led(alloc, step, views)?;
    let mut parts = one(alloc, wrapped)?;
    parts.append(views)?;
    Ok(parts)
}

// An overlay or a background: its views stand behind the content, under the step of the decoration.
#[tactic(auto, using(core_means::specs::Trees::under_then, eval_places::proofs::Right::right_given, eval_places::proofs::Right::right_answered, eval_places::proofs::Right::right_found), unfolding(core_means::specs::Asks::under, body_means::specs::Modified::decorated))]
fn decorated<L, C, F>(
    builder: &Builder<'_, L, F>,
    standing: Standing,
    kind: &ModifierKind,
    step: &Step,
    items: &[CoreItem],
    run: &mut Run,
    cells: &mut C,
) -> Result<Element, Stop>
where
    L: Cells,
    C: Cells,
    F: Fn(&Setting<'_, L>, u32, usize, &CoreItem, &mut Run, &mut C) -> ItemResult,
    requires nests { ItemNests L.map C.map builder.now.room (F.pre builder.now.item) (F.post builder.now.item) }
    requires right { Can L.map builder.now.setting.now run.old (C.map cells.old) (of_modifiers.decorated (of builder.now) (standing_of standing) kind.now step.now items.now) }
    ensures does { Does L.map builder.now.setting.now run.old (C.map cells.old) (of_modifiers.decorated (of builder.now) (standing_of standing) kind.now step.now items.now) result run.new (C.map cells.new) }
{
    let alloc = builder.setting.alloc;
    let views = content(builder, items, run, cells)?;
    let Standing {
        wrapped,
        number,
        ..
    } = standing;
    let parts = behind(alloc, wrapped, step, views)?;
    let made = with_inputs(alloc, kind, number, Items::new(alloc))?;
    modifier(builder.setting, made, parts, run, cells)
}

// A preference reader. What its closure uses of the locals is captured as the reader is made.
#[tactic(auto, using(core_means::specs::Trees::under_then, eval_places::proofs::Right::right_given, eval_places::proofs::Right::right_answered, eval_places::proofs::Right::right_found), unfolding(core_means::specs::Asks::under, body_means::specs::Modified::reading))]
fn reading<L: Cells, C: Cells, F>(
    builder: &Builder<'_, L, F>,
    standing: Standing,
    kind: ReaderKind,
    key: u32,
    id: BlockId,
    run: &mut Run,
    cells: &mut C,
) -> Result<Element, Stop>
    requires right { Can L.map builder.now.setting.now run.old (C.map cells.old) (of_modifiers.reading (of builder.now) (standing_of standing) kind key id) }
    ensures does { Does L.map builder.now.setting.now run.old (C.map cells.old) (of_modifiers.reading (of builder.now) (standing_of standing) kind key id) result run.new (C.map cells.new) }
{
    let block = block_at(builder.setting.program, builder.code, id);
    let none = Items::new(builder.setting.alloc);
    let kept = captured(
        builder.setting,
        none,
        block.code.kept.as_slice(),
        run,
        cells,
    )?;
    let Standing {
        wrapped,
        number,
        decoration,
    } = standing;
    let made = Reader {
        kind,
        number,
        decoration,
        key,
        unit: UnitId {
            number: block.number,
        },
        captured: kept,
    };
    reader(builder.setting, made, wrapped, run, cells)
}

// A block with the locals that it keeps.
#[tactic(auto, using(core_means::specs::Trees::under_then, eval_places::proofs::Right::right_given, eval_places::proofs::Right::right_answered, eval_places::proofs::Right::right_found), unfolding(core_means::specs::Asks::under, body_means::specs::Modified::with_block))]
fn with_block<L: Cells, C: Cells, F>(
    builder: &Builder<'_, L, F>,
    standing: Standing,
    kind: &ModifierKind,
    inputs: Inputs,
    id: BlockId,
    run: &mut Run,
    cells: &mut C,
) -> Result<Element, Stop>
    requires right { Can L.map builder.now.setting.now run.old (C.map cells.old) (of_modifiers.with_block (of builder.now) (standing_of standing) kind.now inputs id) }
    ensures does { Does L.map builder.now.setting.now run.old (C.map cells.old) (of_modifiers.with_block (of builder.now) (standing_of standing) kind.now inputs id) result run.new (C.map cells.new) }
{
    let alloc = builder.setting.alloc;
    let action = handler(builder, id, run, cells)?;
    let Standing {
        wrapped,
        number,
        ..
    } = standing;
    let parts = one(alloc, wrapped)?;
    let made = acting(alloc, kind, number, inputs, action)?;
    modifier(builder.setting, made, parts, run, cells)
}

// A block alone.
#[tactic(auto, using(core_means::specs::Trees::under_then, eval_places::proofs::Right::right_given, eval_places::proofs::Right::right_answered, eval_places::proofs::Right::right_found), unfolding(core_means::specs::Asks::under))]
fn with_action<L: Cells, C: Cells, F>(
    builder: &Builder<'_, L, F>,
    standing: Standing,
    kind: &ModifierKind,
    id: BlockId,
    run: &mut Run,
    cells: &mut C,
) -> Result<Element, Stop>
    requires right { Can L.map builder.now.setting.now run.old (C.map cells.old) (of_modifiers.with_block (of builder.now) (standing_of standing) kind.now [] id) }
    ensures does { Does L.map builder.now.setting.now run.old (C.map cells.old) (of_modifiers.with_block (of builder.now) (standing_of standing) kind.now [] id) result run.new (C.map cells.new) }
{
    let none = Items::new(builder.setting.alloc);
    with_block(builder, standing, kind, none, id, run, cells)
}

// `.onChange(of: v) { }`
#[tactic(auto, using(core_means::specs::Trees::under_then, eval_places::proofs::Right::right_given, eval_places::proofs::Right::right_answered, eval_places::proofs::Right::right_found), unfolding(core_means::specs::Asks::under, body_means::specs::Modified::on_change))]
fn on_change<L: Cells, C: Cells, F>(
    builder: &Builder<'_, L, F>,
    standing: Standing,
    id: BlockId,
    given: &[Option<Value>],
    run: &mut Run,
    cells: &mut C,
) -> Result<Element, Stop>
    requires right { Can L.map builder.now.setting.now run.old (C.map cells.old) (of_modifiers.on_change (of builder.now) (standing_of standing) id given.now) }
    ensures does { Does L.map builder.now.setting.now run.old (C.map cells.old) (of_modifiers.on_change (of builder.now) (standing_of standing) id given.now) result run.new (C.map cells.new) }
{
    let inputs = values_in(builder.setting.alloc, given)?;
    let kind = ModifierKind::OnChange;
    let outcome = with_block(builder, standing, &kind, inputs, id, run, cells);
    drop(kind);
    outcome
}

// The node of what a modifier is made of.
#[tactic(auto, using(core_means::specs::Trees::under_then, eval_places::proofs::Right::right_given, eval_places::proofs::Right::right_answered, eval_places::proofs::Right::right_found), unfolding(core_means::specs::Asks::under, crate::specs::Makings::made_by))]
fn made<L, C, F>(
    builder: &Builder<'_, L, F>,
    standing: Standing,
    makes: &Makes,
    given: &[Option<Value>],
    items: &[CoreItem],
    run: &mut Run,
    cells: &mut C,
) -> Result<Element, Stop>
where
    L: Cells,
    C: Cells,
    F: Fn(&Setting<'_, L>, u32, usize, &CoreItem, &mut Run, &mut C) -> ItemResult,
    requires nests { ItemNests L.map C.map builder.now.room (F.pre builder.now.item) (F.post builder.now.item) }
    requires right { Can L.map builder.now.setting.now run.old (C.map cells.old) (made_by (of builder.now) (standing_of standing) makes.now given.now items.now) }
    ensures does { Does L.map builder.now.setting.now run.old (C.map cells.old) (made_by (of builder.now) (standing_of standing) makes.now given.now items.now) result run.new (C.map cells.new) }
{
    match makes {
        Makes::Numbers(kind) => with_numbers(builder, standing, kind, given, run, cells),
        Makes::Truths(kind) => with_truths(builder, standing, kind, given, run, cells),
        Makes::Value(kind) => with_value(builder, standing, kind, given, run, cells),
        Makes::Id => with_id(builder, standing, given, run, cells),
        Makes::Guide(kind, expr) => with_guide(builder, standing, *kind, expr, run, cells),
        Makes::Views(kind, step) => decorated(builder, standing, kind, step, items, run, cells),
        Makes::Reader(kind, key, id) => reading(builder, standing, *kind, *key, *id, run, cells),
        Makes::Action(kind, id) => with_action(builder, standing, kind, *id, run, cells),
        Makes::Change(id) => on_change(builder, standing, *id, given, run, cells),
    }
}

// What a modifier makes of its content.
#[tactic(auto, using(crate::proofs::Makings::made_under))]
fn modified<L, C, F>(
    builder: &Builder<'_, L, F>,
    standing: Standing,
    kind: &CallKind,
    given: &[Option<Value>],
    items: &[CoreItem],
    run: &mut Run,
    cells: &mut C,
) -> Result<Element, Stop>
where
    L: Cells,
    C: Cells,
    F: Fn(&Setting<'_, L>, u32, usize, &CoreItem, &mut Run, &mut C) -> ItemResult,
    requires nests { ItemNests L.map C.map builder.now.room (F.pre builder.now.item) (F.post builder.now.item) }
    requires right { Can L.map builder.now.setting.now run.old (C.map cells.old) (of_modifiers.modified (of builder.now) (standing_of standing) kind.now given.now items.now) }
    ensures does { Does L.map builder.now.setting.now run.old (C.map cells.old) (of_modifiers.modified (of builder.now) (standing_of standing) kind.now given.now items.now) result run.new (C.map cells.new) }
{
    let makes = makes_of(builder.setting.alloc, standing.decoration, kind)?;
    let outcome = made(builder, standing, &makes, given, items, run, cells);
    drop(makes);
    outcome
}

// An argument, given or left out.
#[tactic(auto, using(core_means::specs::Trees::under_then, eval_places::proofs::Right::right_given, eval_places::proofs::Right::right_answered, eval_places::proofs::Right::right_found), unfolding(core_means::specs::Asks::under))]
fn option_at<L: Cells, C: Cells, F>(
    builder: &Builder<'_, L, F>,
    argument: &Option<Core>,
    run: &mut Run,
    cells: &mut C,
) -> Result<Option<Value>, Stop>
    requires right { Can L.map builder.now.setting.now run.old (C.map cells.old) (of_modifiers.option_at (of builder.now) argument.now) }
    ensures does { Does L.map builder.now.setting.now run.old (C.map cells.old) (of_modifiers.option_at (of builder.now) argument.now) result run.new (C.map cells.new) }
{
    match argument {
        Some(term) => {
            let value = eval_to(builder.setting, builder.room, term, run, cells)?;
            Ok(Some(value))
        }
        None => Ok(None),
    }
}

// The arguments from left to right.
#[tactic(auto, using(core_means::specs::Trees::under_then, eval_places::proofs::Right::right_given, eval_places::proofs::Right::right_answered, eval_places::proofs::Right::right_found), unfolding(core_means::specs::Asks::under, body_means::specs::Modified::options_from))]
fn options_from<L: Cells, C: Cells, F>(
    builder: &Builder<'_, L, F>,
    mut done: Items<Option<Value>>,
    mut rest: &[Option<Core>],
    run: &mut Run,
    cells: &mut C,
) -> Result<Items<Option<Value>>, Stop>
    requires right { Can L.map builder.now.setting.now run.old (C.map cells.old) (of_modifiers.options_from (of builder.now) done rest.now) }
    ensures does { Does L.map builder.now.setting.now run.old (C.map cells.old) (of_modifiers.options_from (of builder.now) done rest.entry.now) result run.new (C.map cells.new) }
{
    while let [argument, more @ ..] = rest {
        let value = option_at(builder, argument, run, cells)?;
        done.push(value)?;
        rest = more;
    }
    Ok(done)
}

// A modifier: its arguments, and then what it makes of its content.
#[tactic(auto, using(core_means::specs::Trees::under_then, eval_places::proofs::Right::right_given, eval_places::proofs::Right::right_answered, eval_places::proofs::Right::right_found), unfolding(core_means::specs::Asks::under, body_means::specs::Modified::one_modifier))]
fn one_modifier<L, C, F>(
    builder: &Builder<'_, L, F>,
    standing: Standing,
    call: &ModifierCall,
    run: &mut Run,
    cells: &mut C,
) -> Result<Element, Stop>
where
    L: Cells,
    C: Cells,
    F: Fn(&Setting<'_, L>, u32, usize, &CoreItem, &mut Run, &mut C) -> ItemResult,
    requires nests { ItemNests L.map C.map builder.now.room (F.pre builder.now.item) (F.post builder.now.item) }
    requires right { Can L.map builder.now.setting.now run.old (C.map cells.old) (of_modifiers.one_modifier (of builder.now) (standing_of standing) call.now) }
    ensures does { Does L.map builder.now.setting.now run.old (C.map cells.old) (of_modifiers.one_modifier (of builder.now) (standing_of standing) call.now) result run.new (C.map cells.new) }
{
    let done = Items::new(builder.setting.alloc);
    let given = options_from(builder, done, call.arguments.as_slice(), run, cells)?;
    modified(
        builder,
        standing,
        &call.kind,
        given.as_slice(),
        call.content.as_slice(),
        run,
        cells,
    )
}

// Overlays, backgrounds and preference readers are decorations.
fn decorations_in(kind: &CallKind) -> u32
    ensures { result ≡ of_modifiers.decorations_in kind.now }
{
    match kind {
        CallKind::Overlay(_) => 1,
        CallKind::Background(_) => 1,
        CallKind::OverlayReader(_, _) => 1,
        CallKind::BackgroundReader(_, _) => 1,
        _ => 0,
    }
}

/// The modifiers of a view expression, from the inside.
#[tactic(auto, using(core_means::specs::Trees::under_then, eval_places::proofs::Right::right_given, eval_places::proofs::Right::right_answered, eval_places::proofs::Right::right_found), unfolding(core_means::specs::Asks::under, body_means::specs::Modified::modifiers_from))]
pub fn modifiers_from<L, C, F>(
    builder: &Builder<'_, L, F>,
    mut wrapped: Element,
    mut rest: &[ModifierCall],
    run: &mut Run,
    cells: &mut C,
) -> Result<Element, Stop>
where
    L: Cells,
    C: Cells,
    F: Fn(&Setting<'_, L>, u32, usize, &CoreItem, &mut Run, &mut C) -> ItemResult,
    requires nests { ItemNests L.map C.map builder.now.room (F.pre builder.now.item) (F.post builder.now.item) }
    requires right { Can L.map builder.now.setting.now run.old (C.map cells.old) (of_modifiers.modifiers_from (of builder.now) (record { wrapped = wrapped; number = 0; decoration = 0 }) rest.now) }
    ensures does { Does L.map builder.now.setting.now run.old (C.map cells.old) (of_modifiers.modifiers_from (of builder.now) (record { wrapped = wrapped; number = 0; decoration = 0 }) rest.entry.now) result run.new (C.map cells.new) }
{
    let mut number: u32 = 0;
    let mut decoration: u32 = 0;
    while let [first, more @ ..] = rest {
        let standing = Standing {
            wrapped,
            number,
            decoration,
        };
        let next = one_modifier(builder, standing, first, run, cells)?;
        let deeper = decoration.saturating_add(decorations_in(&first.kind));
        let further = number.saturating_add(1);
        wrapped = next;
        number = further;
        decoration = deeper;
        rest = more;
    }
    Ok(wrapped)
}
