ghost use Rattle.std.specs.Prelude.{◌≡◌, pos, ◌+ℤ◌, ◌-◌, ◌<◌, [], ◌∷◌, ◌++◌, Some, IsSome, IfOk, OnOk};
ghost use Rattle.body_means.specs.Building as building;
ghost use Rattle.body_means.specs.Each as goes;
ghost use Rattle.body_means.specs.Elements.{narrow};
ghost use Rattle.body_parts.specs.Nests.{ItemNests, of};
ghost use Rattle.body_parts.specs.Shapes.{as_item, item_of};
ghost use Rattle.eval_forms.specs.Counts.{IsCounted};
ghost use Rattle.eval_places.specs.Runs.{Can, Does};

use crate::binding::{Bound, bound_to, with_hop};
use crate::builder::{Builder, ItemResult, views};
use body_nodes::{Ids, holding, led, showing};
use core_means::{Local, Numbers, Run};
use eval_forms::{cut, parts};
use eval_places::{Setting, field};
use eval_terms::pay;
use expr_eval::{entered_to, eval_to, span_to};
use identity_path::{Cells, Input, Place, Step};
use std::alloc::{AllocError, Global};
use sv_items::Items;
use sv_value::{Hop, Value};
use swift_core::{CodeId, Core, CoreItem, ForEachOver, IdRule, Over, Target};
use value_calls::{Stop, look};
use view_nodes::{Element, NodeKind};

/// An item's id and its node.
#[derive(Drop)]
pub struct Item {
    pub id: Value,
    pub made: Element,
}

fn value_in(value: Option<Value>) -> Value
    requires { IsSome value }
    ensures { value ≡ Some result }
{
    match value {
        Some(value) => value,
        None => unreachable!(),
    }
}

// A computed property of the element.
#[tactic(auto, using(core_means::specs::Trees::under_then, eval_places::proofs::Right::right_given), unfolding(core_means::specs::Asks::under, body_means::specs::Each::computed))]
fn computed<L: Cells, C: Cells, F>(
    builder: &Builder<'_, L, F>,
    code: CodeId,
    element: &Value,
    run: &mut Run,
    cells: &mut C,
) -> Result<Value, Stop>
    requires right { Can L.map builder.now.setting.now run.old (C.map cells.old) (goes.computed (of builder.now) code element.now) }
    ensures does { Does L.map builder.now.setting.now run.old (C.map cells.old) (goes.computed (of builder.now) code element.now) result run.new (C.map cells.new) }
{
    let itself = element.copy(builder.setting.alloc)?;
    let value = entered_to(
        builder.setting,
        builder.room,
        code,
        Items::new(builder.setting.alloc),
        Some(itself),
        run,
        cells,
    )?;
    Ok(value_in(value))
}

// The id of an element.
#[tactic(auto, using(eval_places::proofs::Right::right_given, eval_places::proofs::Right::right_answered), unfolding(core_means::specs::Asks::under, body_means::specs::Each::id_of))]
fn id_of<L: Cells, C: Cells, F>(
    builder: &Builder<'_, L, F>,
    rule: IdRule,
    element: &Value,
    run: &mut Run,
    cells: &mut C,
) -> Result<Value, Stop>
    requires right { Can L.map builder.now.setting.now run.old (C.map cells.old) (goes.id_of (of builder.now) rule element.now) }
    ensures does { Does L.map builder.now.setting.now run.old (C.map cells.old) (goes.id_of (of builder.now) rule element.now) result run.new (C.map cells.new) }
{
    match rule {
        IdRule::Itself => Ok(element.copy(builder.setting.alloc)?),
        IdRule::Field(at) => Ok(field(builder.setting.alloc, at, element)?),
        IdRule::Computed(code) => computed(builder, code, element, run, cells),
        IdRule::Look(property) => look(builder.setting.alloc, property, element),
    }
}

fn push_input(run: &mut Run, input: Input) -> Result<(), AllocError>
    ensures { OnOk result (run.new ≡ record run.old { locals = run.old.locals ++ Local.Holds input ∷ [] }) }
{
    run.locals.push(Local::Holds(input))?;
    Ok(())
}

// The views of an item, with its local, which ends with them.
#[tactic(auto, using(core_means::specs::Trees::under_then), unfolding(core_means::specs::Asks::under, core_means::specs::Means::framed, body_means::specs::Each::item_content))]
fn item_content<L, C, F>(
    builder: &Builder<'_, L, F>,
    holds: Input,
    content: &[CoreItem],
    run: &mut Run,
    cells: &mut C,
) -> Result<Items<Element>, Stop>
where
    L: Cells,
    C: Cells,
    F: Fn(&Setting<'_, L>, u32, usize, &CoreItem, &mut Run, &mut C) -> ItemResult,
    requires nests { ItemNests L.map C.map builder.now.room (F.pre builder.now.item) (F.post builder.now.item) }
    requires right { Can L.map builder.now.setting.now run.old (C.map cells.old) (goes.item_content (of builder.now) holds content.now) }
    ensures does { Does L.map builder.now.setting.now run.old (C.map cells.old) (goes.item_content (of builder.now) holds content.now) result run.new (C.map cells.new) }
{
    let count = run.locals.len();
    push_input(run, holds)?;
    let done = Items::new(builder.setting.alloc);
    let made = views(builder, builder.code, done, content, run, cells)?;
    cut(&mut run.locals, count);
    Ok(made)
}

// The step of an item: its id and the number of earlier items with an equal one.
fn item_step(alloc: Global, ids: &Ids, id: &Value) -> Result<Step, AllocError>
    ensures { IfOk result (λ step. step ≡ Step.Item id.now (narrow (goes.again id.now ids.now))) }
{
    let again = ids.again(id)?;
    let copy = id.copy(alloc)?;
    Ok(Step::Item(copy, again))
}

// An item that stands under its step.
fn item_with(alloc: Global, ids: &Ids, id: Value, node: Element) -> Result<Item, AllocError>
    ensures { IfOk result (λ item. item_of item ≡ goes.item_with ids.now id node) }
{
    match item_step(alloc, ids, &id) {
        Ok(step) => {
            let made = led(alloc, step, node)?;
            Ok(Item { id, made })
        }
        Err(refused) => {
            drop(node);
            Err(refused)
        }
    }
}

// The node of an item, under its id and the number of earlier items with an equal one.
#[tactic(auto, using(core_means::specs::Trees::under_then), unfolding(core_means::specs::Asks::under, body_means::specs::Each::item_node))]
fn item_node<L, C, F>(
    builder: &Builder<'_, L, F>,
    ids: &Ids,
    content: &[CoreItem],
    holds: Input,
    id: Value,
    run: &mut Run,
    cells: &mut C,
) -> Result<Item, Stop>
where
    L: Cells,
    C: Cells,
    F: Fn(&Setting<'_, L>, u32, usize, &CoreItem, &mut Run, &mut C) -> ItemResult,
    requires nests { ItemNests L.map C.map builder.now.room (F.pre builder.now.item) (F.post builder.now.item) }
    requires right { Can L.map builder.now.setting.now run.old (C.map cells.old) (goes.item_node (of builder.now) ids.now content.now holds id) }
    ensures does { Does L.map builder.now.setting.now run.old (C.map cells.old) (goes.item_node (of builder.now) ids.now content.now holds id) (as_item result) run.new (C.map cells.new) }
{
    let shown = id.copy(builder.setting.alloc)?;
    let parts = item_content(builder, holds, content, run, cells)?;
    let node = showing(builder.setting, NodeKind::Item, shown, parts, run, cells)?;
    Ok(item_with(builder.setting.alloc, ids, id, node)?)
}

// An item: a unit of fuel, its id, its views and its node.
#[tactic(auto, using(core_means::specs::Trees::under_then), unfolding(core_means::specs::Asks::under, body_means::specs::Each::item_of))]
fn item_of<L, C, F>(
    builder: &Builder<'_, L, F>,
    rule: IdRule,
    content: &[CoreItem],
    ids: &Ids,
    element: &Value,
    holds: Input,
    run: &mut Run,
    cells: &mut C,
) -> Result<Item, Stop>
where
    L: Cells,
    C: Cells,
    F: Fn(&Setting<'_, L>, u32, usize, &CoreItem, &mut Run, &mut C) -> ItemResult,
    requires nests { ItemNests L.map C.map builder.now.room (F.pre builder.now.item) (F.post builder.now.item) }
    requires right { Can L.map builder.now.setting.now run.old (C.map cells.old) (goes.item_of (of builder.now) rule content.now ids.now (record { element = element.now; holds = holds })) }
    ensures does { Does L.map builder.now.setting.now run.old (C.map cells.old) (goes.item_of (of builder.now) rule content.now ids.now (record { element = element.now; holds = holds })) (as_item result) run.new (C.map cells.new) }
{
    pay(builder.setting, run, cells)?;
    let id = id_of(builder, rule, element, run, cells)?;
    item_node(builder, ids, content, holds, id, run, cells)
}

// The items of a list's elements.
#[tactic(auto, using(core_means::specs::Trees::under_then, crate::proofs::Turns::no_value), unfolding(core_means::specs::Asks::under, body_means::specs::Each::items_from, body_means::specs::Each::offered_values))]
fn values_items<L, C, F>(
    builder: &Builder<'_, L, F>,
    rule: IdRule,
    content: &[CoreItem],
    mut ids: Ids,
    mut done: Items<Element>,
    mut rest: &[Value],
    run: &mut Run,
    cells: &mut C,
) -> Result<Items<Element>, Stop>
where
    L: Cells,
    C: Cells,
    F: Fn(&Setting<'_, L>, u32, usize, &CoreItem, &mut Run, &mut C) -> ItemResult,
    requires nests { ItemNests L.map C.map builder.now.room (F.pre builder.now.item) (F.post builder.now.item) }
    requires right { Can L.map builder.now.setting.now run.old (C.map cells.old) (goes.items_from (of builder.now) rule content.now ids done (goes.offered_values rest.now)) }
    ensures does { Does L.map builder.now.setting.now run.old (C.map cells.old) (goes.items_from (of builder.now) rule content.now ids done (goes.offered_values rest.entry.now)) result run.new (C.map cells.new) }
{
    let alloc = builder.setting.alloc;
    while let [element, more @ ..] = rest {
        let copy = element.copy(alloc)?;
        let holds = Input::Value(copy);
        let item = item_of(builder, rule, content, &ids, element, holds, run, cells)?;
        let Item { id, made } = item;
        done.push(made)?;
        let noted = ids.with(id)?;
        ids = noted;
        rest = more;
    }
    Ok(done)
}

// The first of the numbers.
fn first_of(numbers: Numbers) -> Value
    ensures { result ≡ Value.Int numbers.first }
{
    Value::Int(numbers.first)
}

// The numbers after the first.
#[tactic(auto, using(eval_forms::proofs::Counts::kept, eval_forms::proofs::Counts::step_fits, eval_forms::proofs::Counts::step_counts))]
fn after(numbers: Numbers) -> Numbers
    requires some { 1 < numbers.count }
    requires fits { IsCounted numbers }
    ensures first { result.first ≡ numbers.first +ℤ pos 1 }
    ensures count { result.count ≡ numbers.count - 1 }
    ensures fits { IsCounted result }
{
    Numbers {
        first: numbers.first + 1,
        count: numbers.count - 1,
    }
}

// The items of numbers in order. The ids are the numbers.
#[tactic(auto, using(core_means::specs::Trees::under_then, crate::proofs::Turns::no_number), unfolding(core_means::specs::Asks::under, body_means::specs::Each::items_from, body_means::specs::Each::offered_numbers))]
fn numbers_items<L, C, F>(
    builder: &Builder<'_, L, F>,
    content: &[CoreItem],
    mut ids: Ids,
    mut done: Items<Element>,
    mut left: Numbers,
    run: &mut Run,
    cells: &mut C,
) -> Result<Items<Element>, Stop>
where
    L: Cells,
    C: Cells,
    F: Fn(&Setting<'_, L>, u32, usize, &CoreItem, &mut Run, &mut C) -> ItemResult,
    requires nests { ItemNests L.map C.map builder.now.room (F.pre builder.now.item) (F.post builder.now.item) }
    requires fits { IsCounted left }
    requires right { Can L.map builder.now.setting.now run.old (C.map cells.old) (goes.items_from (of builder.now) IdRule.Itself content.now ids done (goes.offered_numbers left.count left.first)) }
    ensures does { Does L.map builder.now.setting.now run.old (C.map cells.old) (goes.items_from (of builder.now) IdRule.Itself content.now ids done (goes.offered_numbers left.count left.first)) result run.new (C.map cells.new) }
{
    let rule = IdRule::Itself;
    while left.count > 0 {
        let element = first_of(left);
        let shown = first_of(left);
        let holds = Input::Value(shown);
        let item = item_of(builder, rule, content, &ids, &element, holds, run, cells)?;
        let Item { id, made } = item;
        done.push(made)?;
        if left.count == 1 {
            return Ok(done);
        }
        let noted = ids.with(id)?;
        ids = noted;
        let next = after(left);
        left = next;
    }
    Ok(done)
}

fn index_place(place: &Place, at: usize) -> Result<Place, AllocError>
    requires { at < 9223372036854775808 }
    ensures { IfOk result (λ inner. inner ≡ building.with_hop place.now (Hop.Index (pos at))) }
{
    with_hop(place.copy()?, Hop::Index(at as i64))
}

// The items of the elements of the list at a place, each with the place of its index.
#[tactic(auto, using(core_means::specs::Trees::under_then, crate::proofs::Turns::no_place), unfolding(core_means::specs::Asks::under, body_means::specs::Each::items_from, body_means::specs::Each::offered_places))]
fn places_items<L, C, F>(
    builder: &Builder<'_, L, F>,
    rule: IdRule,
    content: &[CoreItem],
    place: &Place,
    mut ids: Ids,
    mut done: Items<Element>,
    mut rest: &[Value],
    run: &mut Run,
    cells: &mut C,
) -> Result<Items<Element>, Stop>
where
    L: Cells,
    C: Cells,
    F: Fn(&Setting<'_, L>, u32, usize, &CoreItem, &mut Run, &mut C) -> ItemResult,
    requires nests { ItemNests L.map C.map builder.now.room (F.pre builder.now.item) (F.post builder.now.item) }
    requires right { Can L.map builder.now.setting.now run.old (C.map cells.old) (goes.items_from (of builder.now) rule content.now ids done (goes.offered_places place.now 0 rest.now)) }
    ensures does { Does L.map builder.now.setting.now run.old (C.map cells.old) (goes.items_from (of builder.now) rule content.now ids done (goes.offered_places place.now 0 rest.entry.now)) result run.new (C.map cells.new) }
{
    let mut at: usize = 0;
    while let [element, more @ ..] = rest {
        let inner = index_place(place, at)?;
        let holds = Input::Place(inner);
        let item = item_of(builder, rule, content, &ids, element, holds, run, cells)?;
        let Item { id, made } = item;
        done.push(made)?;
        let noted = ids.with(id)?;
        ids = noted;
        rest = more;
        at += 1;
    }
    Ok(done)
}

// The items of a range.
#[tactic(auto, using(core_means::specs::Trees::under_then), unfolding(core_means::specs::Asks::under, body_means::specs::Each::all_items, body_means::specs::Each::over_numbers))]
fn over_numbers<L, C, F>(
    builder: &Builder<'_, L, F>,
    over: &Over,
    content: &[CoreItem],
    run: &mut Run,
    cells: &mut C,
) -> Result<Items<Element>, Stop>
where
    L: Cells,
    C: Cells,
    F: Fn(&Setting<'_, L>, u32, usize, &CoreItem, &mut Run, &mut C) -> ItemResult,
    requires nests { ItemNests L.map C.map builder.now.room (F.pre builder.now.item) (F.post builder.now.item) }
    requires right { Can L.map builder.now.setting.now run.old (C.map cells.old) (goes.over_numbers (of builder.now) over.now content.now) }
    ensures does { Does L.map builder.now.setting.now run.old (C.map cells.old) (goes.over_numbers (of builder.now) over.now content.now) result run.new (C.map cells.new) }
{
    let numbers = span_to(builder.setting, builder.room, over, run, cells)?;
    let alloc = builder.setting.alloc;
    let ids = Ids::new(alloc);
    let done = Items::new(alloc);
    numbers_items(builder, content, ids, done, numbers, run, cells)
}

// The items of a list, which is evaluated once.
#[tactic(auto, using(core_means::specs::Trees::under_then, eval_places::proofs::Right::right_found), unfolding(core_means::specs::Asks::under, body_means::specs::Each::all_items, body_means::specs::Each::over_values))]
fn over_values<L, C, F>(
    builder: &Builder<'_, L, F>,
    term: &Core,
    rule: IdRule,
    content: &[CoreItem],
    run: &mut Run,
    cells: &mut C,
) -> Result<Items<Element>, Stop>
where
    L: Cells,
    C: Cells,
    F: Fn(&Setting<'_, L>, u32, usize, &CoreItem, &mut Run, &mut C) -> ItemResult,
    requires nests { ItemNests L.map C.map builder.now.room (F.pre builder.now.item) (F.post builder.now.item) }
    requires right { Can L.map builder.now.setting.now run.old (C.map cells.old) (goes.over_values (of builder.now) term.now rule content.now) }
    ensures does { Does L.map builder.now.setting.now run.old (C.map cells.old) (goes.over_values (of builder.now) term.now rule content.now) result run.new (C.map cells.new) }
{
    let list = eval_to(builder.setting, builder.room, term, run, cells)?;
    let alloc = builder.setting.alloc;
    let ids = Ids::new(alloc);
    let done = Items::new(alloc);
    values_items(builder, rule, content, ids, done, parts(&list), run, cells)
}

// The items of the list at a place. The place and then the value there are looked up once.
#[tactic(auto, using(core_means::specs::Trees::under_then, eval_places::proofs::Right::right_found), unfolding(core_means::specs::Asks::under, body_means::specs::Each::all_items, body_means::specs::Each::over_places))]
fn over_places<L, C, F>(
    builder: &Builder<'_, L, F>,
    target: &Target,
    rule: IdRule,
    content: &[CoreItem],
    run: &mut Run,
    cells: &mut C,
) -> Result<Items<Element>, Stop>
where
    L: Cells,
    C: Cells,
    F: Fn(&Setting<'_, L>, u32, usize, &CoreItem, &mut Run, &mut C) -> ItemResult,
    requires nests { ItemNests L.map C.map builder.now.room (F.pre builder.now.item) (F.post builder.now.item) }
    requires right { Can L.map builder.now.setting.now run.old (C.map cells.old) (goes.over_places (of builder.now) target.now rule content.now) }
    ensures does { Does L.map builder.now.setting.now run.old (C.map cells.old) (goes.over_places (of builder.now) target.now rule content.now) result run.new (C.map cells.new) }
{
    let bound = bound_to(builder, target, run, cells)?;
    let Bound { place, value } = bound;
    let alloc = builder.setting.alloc;
    let ids = Ids::new(alloc);
    let done = Items::new(alloc);
    places_items(
        builder,
        rule,
        content,
        &place,
        ids,
        done,
        parts(&value),
        run,
        cells,
    )
}

// The items of what is gone over.
fn items_over<L, C, F>(
    builder: &Builder<'_, L, F>,
    over: &ForEachOver,
    content: &[CoreItem],
    run: &mut Run,
    cells: &mut C,
) -> Result<Items<Element>, Stop>
where
    L: Cells,
    C: Cells,
    F: Fn(&Setting<'_, L>, u32, usize, &CoreItem, &mut Run, &mut C) -> ItemResult,
    requires nests { ItemNests L.map C.map builder.now.room (F.pre builder.now.item) (F.post builder.now.item) }
    requires right { Can L.map builder.now.setting.now run.old (C.map cells.old) (goes.over_at (of builder.now) over.now content.now) }
    ensures does { Does L.map builder.now.setting.now run.old (C.map cells.old) (goes.over_at (of builder.now) over.now content.now) result run.new (C.map cells.new) }
{
    match over {
        ForEachOver::Numbers(over) => over_numbers(builder, over, content, run, cells),
        ForEachOver::Values(term, rule) => over_values(builder, term, *rule, content, run, cells),
        ForEachOver::Places(target, rule) => {
            over_places(builder, target, *rule, content, run, cells)
        }
    }
}

/// `ForEach`
#[tactic(auto, using(core_means::specs::Trees::under_then), unfolding(core_means::specs::Asks::under, body_means::specs::Each::for_each))]
pub fn for_each<L, C, F>(
    builder: &Builder<'_, L, F>,
    over: &ForEachOver,
    content: &[CoreItem],
    run: &mut Run,
    cells: &mut C,
) -> Result<Element, Stop>
where
    L: Cells,
    C: Cells,
    F: Fn(&Setting<'_, L>, u32, usize, &CoreItem, &mut Run, &mut C) -> ItemResult,
    requires nests { ItemNests L.map C.map builder.now.room (F.pre builder.now.item) (F.post builder.now.item) }
    requires right { Can L.map builder.now.setting.now run.old (C.map cells.old) (goes.for_each (of builder.now) over.now content.now) }
    ensures does { Does L.map builder.now.setting.now run.old (C.map cells.old) (goes.for_each (of builder.now) over.now content.now) result run.new (C.map cells.new) }
{
    let parts = items_over(builder, over, content, run, cells)?;
    holding(builder.setting, NodeKind::ForEach, parts, run, cells)
}
