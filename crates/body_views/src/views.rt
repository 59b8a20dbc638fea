ghost use Rattle.std.specs.Prelude.{◌≡◌, [], ◌∷◌, Some, None, IsSome, IfOk};
ghost use Rattle.core_means.specs.Means as means;
ghost use Rattle.eval_places.specs.Runs.{Can, Does};
ghost use Rattle.body_means.specs.Building as building;
ghost use Rattle.body_means.specs.Elements as elements;
ghost use Rattle.body_means.specs.Views as of_views;
ghost use Rattle.body_parts.specs.Nests.{ItemNests, of};
ghost use Rattle.body_views.specs.Arms as arms;

use align_guides::Axis;
use body_nodes::{holding, led, showing, text, view};
use body_parts::{
    Bound, Builder, ItemResult, bound_to, content, custom_view, for_each, handler, views,
};
use core_means::{Local, Run};
use eval_places::Setting;
use eval_terms::{code_of, held};
use expr_eval::{eval_to, values_to};
use identity_path::{Cells, Input, Step};
use std::alloc::{AllocError, Global};
use std::mem;
use sv_items::Items;
use sv_value::Value;
use swift_core::{
    Alignment, BlockId, Code, CodeForm, CodeId, Core, CoreItem, Label, Program, Target, ViewCall,
};
use value_calls::Stop;
use view_nodes::{Element, Handler, Node, NodeKind};

/// A list of one item.
pub fn one<T: Drop>(alloc: Global, item: T) -> Result<Items<T>, AllocError>
    ensures { IfOk result (λ list. list ≡ item ∷ []) }
{
    let mut list = Items::new(alloc);
    list.push(item)?;
    Ok(list)
}

/// The items of a piece of code that gives views.
pub fn items_of(code: &Code) -> &Items<CoreItem>
    requires { IsSome (of_views.items_in code.now.form) }
    ensures { of_views.items_in code.now.form ≡ Some result.now }
{
    match &code.form {
        CodeForm::Builder(items) => items,
        CodeForm::Value(_) => unreachable!(),
        CodeForm::Statements(_) => unreachable!(),
    }
}

/// The number that a value is.
#[tactic(auto, unfolding(body_means::specs::Views::number))]
pub fn number(value: &Value) -> i64
    requires { IsSome (of_views.number value.now) }
    ensures { of_views.number value.now ≡ Some result }
{
    match value {
        Value::Int(number) => *number,
        _ => unreachable!(),
    }
}

// A number that is given.
#[tactic(auto, using(core_means::specs::Trees::under_then, eval_places::proofs::Right::right_given, eval_places::proofs::Right::right_answered, eval_places::proofs::Right::right_found, crate::proofs::Right::right_given_then), unfolding(core_means::specs::Asks::under))]
fn number_given<L: Cells, C: Cells, F>(
    builder: &Builder<'_, L, F>,
    term: &Core,
    run: &mut Run,
    cells: &mut C,
) -> Result<Option<i64>, Stop>
    requires right { Can L.map builder.now.setting.now run.old (C.map cells.old) (arms.number_given (of builder.now) term.now) }
    ensures does { Does L.map builder.now.setting.now run.old (C.map cells.old) (arms.number_given (of builder.now) term.now) result run.new (C.map cells.new) }
{
    let value = eval_to(builder.setting, builder.room, term, run, cells)?;
    let number = number(&value);
    Ok(Some(number))
}

// A number that may be left out.
#[tactic(auto, using(core_means::specs::Trees::under_then, eval_places::proofs::Right::right_given, eval_places::proofs::Right::right_answered, eval_places::proofs::Right::right_found), unfolding(core_means::specs::Asks::under, body_means::specs::Views::number_of))]
fn number_of<L: Cells, C: Cells, F>(
    builder: &Builder<'_, L, F>,
    given: &Option<Core>,
    run: &mut Run,
    cells: &mut C,
) -> Result<Option<i64>, Stop>
    requires right { Can L.map builder.now.setting.now run.old (C.map cells.old) (of_views.number_of (of builder.now) given.now) }
    ensures does { Does L.map builder.now.setting.now run.old (C.map cells.old) (of_views.number_of (of builder.now) given.now) result run.new (C.map cells.new) }
{
    match given {
        Some(term) => number_given(builder, term, run, cells),
        None => Ok(None),
    }
}

// `Text(s)`
#[tactic(auto, using(core_means::specs::Trees::under_then, eval_places::proofs::Right::right_given, eval_places::proofs::Right::right_answered, eval_places::proofs::Right::right_found), unfolding(core_means::specs::Asks::under, body_means::specs::Views::text_view))]
fn text_view<L: Cells, C: Cells, F>(
    builder: &Builder<'_, L, F>,
    term: &Core,
    run: &mut Run,
    cells: &mut C,
) -> Result<Element, Stop>
    requires right { Can L.map builder.now.setting.now run.old (C.map cells.old) (of_views.text_view (of builder.now) term.now) }
    ensures does { Does L.map builder.now.setting.now run.old (C.map cells.old) (of_views.text_view (of builder.now) term.now) result run.new (C.map cells.new) }
{
    let value = eval_to(builder.setting, builder.room, term, run, cells)?;
    text(builder.setting, value, run, cells)
}

// `Image(systemName: s)`
#[tactic(auto, using(core_means::specs::Trees::under_then, eval_places::proofs::Right::right_given, eval_places::proofs::Right::right_answered, eval_places::proofs::Right::right_found), unfolding(core_means::specs::Asks::under, body_means::specs::Views::image))]
fn image<L: Cells, C: Cells, F>(
    builder: &Builder<'_, L, F>,
    term: &Core,
    run: &mut Run,
    cells: &mut C,
) -> Result<Element, Stop>
    requires right { Can L.map builder.now.setting.now run.old (C.map cells.old) (of_views.image (of builder.now) term.now) }
    ensures does { Does L.map builder.now.setting.now run.old (C.map cells.old) (of_views.image (of builder.now) term.now) result run.new (C.map cells.new) }
{
    let name = eval_to(builder.setting, builder.room, term, run, cells)?;
    let none = Items::new(builder.setting.alloc);
    showing(builder.setting, NodeKind::Image, name, none, run, cells)
}

// A label that is a string is a builder of that one text.
#[tactic(auto, using(core_means::specs::Trees::under_then, eval_places::proofs::Right::right_given, eval_places::proofs::Right::right_answered, eval_places::proofs::Right::right_found), unfolding(core_means::specs::Asks::under, body_means::specs::Views::text_label))]
fn text_label<L: Cells, C: Cells, F>(
    builder: &Builder<'_, L, F>,
    term: &Core,
    run: &mut Run,
    cells: &mut C,
) -> Result<Items<Element>, Stop>
    requires right { Can L.map builder.now.setting.now run.old (C.map cells.old) (of_views.text_label (of builder.now) term.now) }
    ensures does { Does L.map builder.now.setting.now run.old (C.map cells.old) (of_views.text_label (of builder.now) term.now) result run.new (C.map cells.new) }
{
    let text = text_view(builder, term, run, cells)?;
    let text = led(builder.setting.alloc, Step::Child(0), text)?;
    Ok(one(builder.setting.alloc, text)?)
}

#[tactic(auto, using(core_means::specs::Trees::under_then, eval_places::proofs::Right::right_given, eval_places::proofs::Right::right_answered, eval_places::proofs::Right::right_found), unfolding(core_means::specs::Asks::under, body_means::specs::Views::label))]
fn label<L, C, F>(
    builder: &Builder<'_, L, F>,
    label: &Label,
    run: &mut Run,
    cells: &mut C,
) -> Result<Items<Element>, Stop>
where
    L: Cells,
    C: Cells,
    F: Fn(&Setting<'_, L>, u32, usize, &CoreItem, &mut Run, &mut C) -> ItemResult,
    requires nests { ItemNests L.map C.map builder.now.room (F.pre builder.now.item) (F.post builder.now.item) }
    requires right { Can L.map builder.now.setting.now run.old (C.map cells.old) (of_views.label (of builder.now) label.now) }
    ensures does { Does L.map builder.now.setting.now run.old (C.map cells.old) (of_views.label (of builder.now) label.now) result run.new (C.map cells.new) }
{
    match label {
        Label::Text(term) => text_label(builder, term, run, cells),
        Label::Content(items) => content(builder, items.as_slice(), run, cells),
    }
}

fn button_node(alloc: Global, action: Handler) -> Result<Node, AllocError>
    ensures { IfOk result (λ node. node ≡ record { kind = NodeKind.Button; inputs = []; numbers = []; blocks = action ∷ [] }) }
{
    Ok(Node {
        kind: NodeKind::Button,
        inputs: Items::new(alloc),
        numbers: Items::new(alloc),
        blocks: one(alloc, action)?,
    })
}

// The label, and then the action with the locals that it keeps.
#[tactic(auto, using(core_means::specs::Trees::under_then, eval_places::proofs::Right::right_given, eval_places::proofs::Right::right_answered, eval_places::proofs::Right::right_found), unfolding(core_means::specs::Asks::under, body_means::specs::Views::button))]
fn button<L, C, F>(
    builder: &Builder<'_, L, F>,
    id: BlockId,
    shown: &Label,
    run: &mut Run,
    cells: &mut C,
) -> Result<Element, Stop>
where
    L: Cells,
    C: Cells,
    F: Fn(&Setting<'_, L>, u32, usize, &CoreItem, &mut Run, &mut C) -> ItemResult,
    requires nests { ItemNests L.map C.map builder.now.room (F.pre builder.now.item) (F.post builder.now.item) }
    requires right { Can L.map builder.now.setting.now run.old (C.map cells.old) (of_views.button (of builder.now) id shown.now) }
    ensures does { Does L.map builder.now.setting.now run.old (C.map cells.old) (of_views.button (of builder.now) id shown.now) result run.new (C.map cells.new) }
{
    let views = label(builder, shown, run, cells)?;
    let action = handler(builder, id, run, cells)?;
    let node = button_node(builder.setting.alloc, action)?;
    view(builder.setting, node, views, run, cells)
}

// A toggle holds its place and the value that is looked up there.
fn toggle_held(alloc: Global, at: Bound) -> Result<Node, AllocError>
    ensures { IfOk result (λ node. node ≡ record { kind = NodeKind.Toggle; inputs = Input.Place at.place ∷ Input.Value at.value ∷ []; numbers = []; blocks = [] }) }
{
    let Bound { place, value } = at;
    let mut inputs = one(alloc, Input::Place(place))?;
    inputs.push(Input::Value(value))?;
    Ok(Node {
        kind: NodeKind::Toggle,
        inputs,
        numbers: Items::new(alloc),
        blocks: Items::new(alloc),
    })
}

#[tactic(auto, using(core_means::specs::Trees::under_then, eval_places::proofs::Right::right_given, eval_places::proofs::Right::right_answered, eval_places::proofs::Right::right_found), unfolding(core_means::specs::Asks::under, body_means::specs::Views::toggle_node))]
fn toggle_node<L: Cells, C: Cells, F>(
    builder: &Builder<'_, L, F>,
    views: Items<Element>,
    at: Bound,
    run: &mut Run,
    cells: &mut C,
) -> Result<Element, Stop>
    requires right { Can L.map builder.now.setting.now run.old (C.map cells.old) (of_views.toggle_node (of builder.now) views (building.bound_with at.place at.value)) }
    ensures does { Does L.map builder.now.setting.now run.old (C.map cells.old) (of_views.toggle_node (of builder.now) views (building.bound_with at.place at.value)) result run.new (C.map cells.new) }
{
    let node = toggle_held(builder.setting.alloc, at)?;
    view(builder.setting, node, views, run, cells)
}

// `Toggle(s, isOn: b)`
#[tactic(auto, using(core_means::specs::Trees::under_then, eval_places::proofs::Right::right_given, eval_places::proofs::Right::right_answered, eval_places::proofs::Right::right_found), unfolding(core_means::specs::Asks::under))]
fn text_toggle<L: Cells, C: Cells, F>(
    builder: &Builder<'_, L, F>,
    target: &Target,
    term: &Core,
    run: &mut Run,
    cells: &mut C,
) -> Result<Element, Stop>
    requires right { Can L.map builder.now.setting.now run.old (C.map cells.old) (arms.text_toggle (of builder.now) target.now term.now) }
    ensures does { Does L.map builder.now.setting.now run.old (C.map cells.old) (arms.text_toggle (of builder.now) target.now term.now) result run.new (C.map cells.new) }
{
    let views = text_label(builder, term, run, cells)?;
    let at = bound_to(builder, target, run, cells)?;
    toggle_node(builder, views, at, run, cells)
}

// `Toggle(isOn: b) { B }`
#[tactic(auto, using(core_means::specs::Trees::under_then, eval_places::proofs::Right::right_given, eval_places::proofs::Right::right_answered, eval_places::proofs::Right::right_found), unfolding(core_means::specs::Asks::under))]
fn view_toggle<L, C, F>(
    builder: &Builder<'_, L, F>,
    target: &Target,
    items: &[CoreItem],
    run: &mut Run,
    cells: &mut C,
) -> Result<Element, Stop>
where
    L: Cells,
    C: Cells,
    F: Fn(&Setting<'_, L>, u32, usize, &CoreItem, &mut Run, &mut C) -> ItemResult,
    requires nests { ItemNests L.map C.map builder.now.room (F.pre builder.now.item) (F.post builder.now.item) }
    requires right { Can L.map builder.now.setting.now run.old (C.map cells.old) (arms.view_toggle (of builder.now) target.now items.now) }
    ensures does { Does L.map builder.now.setting.now run.old (C.map cells.old) (arms.view_toggle (of builder.now) target.now items.now) result run.new (C.map cells.new) }
{
    let at = bound_to(builder, target, run, cells)?;
    let views = content(builder, items, run, cells)?;
    toggle_node(builder, views, at, run, cells)
}

// A toggle, in the order in which it is written.
#[tactic(auto, using(core_means::specs::Trees::under_then, eval_places::proofs::Right::right_given, eval_places::proofs::Right::right_answered, eval_places::proofs::Right::right_found), unfolding(core_means::specs::Asks::under, body_means::specs::Views::toggle))]
fn toggle<L, C, F>(
    builder: &Builder<'_, L, F>,
    target: &Target,
    label: &Label,
    run: &mut Run,
    cells: &mut C,
) -> Result<Element, Stop>
where
    L: Cells,
    C: Cells,
    F: Fn(&Setting<'_, L>, u32, usize, &CoreItem, &mut Run, &mut C) -> ItemResult,
    requires nests { ItemNests L.map C.map builder.now.room (F.pre builder.now.item) (F.post builder.now.item) }
    requires right { Can L.map builder.now.setting.now run.old (C.map cells.old) (of_views.toggle (of builder.now) target.now label.now) }
    ensures does { Does L.map builder.now.setting.now run.old (C.map cells.old) (of_views.toggle (of builder.now) target.now label.now) result run.new (C.map cells.new) }
{
    match label {
        Label::Text(term) => text_toggle(builder, target, term, run, cells),
        Label::Content(items) => view_toggle(builder, target, items.as_slice(), run, cells),
    }
}

// A node of this kind with these numbers.
fn with_numbers(alloc: Global, kind: NodeKind, numbers: Items<Option<i64>>) -> Node
    ensures { result ≡ record { kind = kind; inputs = []; numbers = numbers; blocks = [] } }
{
    Node {
        kind,
        inputs: Items::new(alloc),
        numbers,
        blocks: Items::new(alloc),
    }
}

#[tactic(auto, using(core_means::specs::Trees::under_then, eval_places::proofs::Right::right_given, eval_places::proofs::Right::right_answered, eval_places::proofs::Right::right_found), unfolding(core_means::specs::Asks::under, body_means::specs::Views::spacer))]
fn spacer<L: Cells, C: Cells, F>(
    builder: &Builder<'_, L, F>,
    length: &Option<Core>,
    run: &mut Run,
    cells: &mut C,
) -> Result<Element, Stop>
    requires right { Can L.map builder.now.setting.now run.old (C.map cells.old) (of_views.spacer (of builder.now) length.now) }
    ensures does { Does L.map builder.now.setting.now run.old (C.map cells.old) (of_views.spacer (of builder.now) length.now) result run.new (C.map cells.new) }
{
    let alloc = builder.setting.alloc;
    let length = number_of(builder, length, run, cells)?;
    let node = with_numbers(alloc, NodeKind::Spacer, one(alloc, length)?);
    view(builder.setting, node, Items::new(alloc), run, cells)
}

// A stack along an axis has a spacing, given or left out; one along `Z` has none.
fn spacings(
    alloc: Global,
    axis: Axis,
    number: Option<i64>,
) -> Result<Items<Option<i64>>, AllocError>
    ensures { IfOk result (λ numbers. numbers ≡ of_views.spacings axis number) }
{
    match axis {
        Axis::H => one(alloc, number),
        Axis::V => one(alloc, number),
        Axis::Z => Ok(Items::new(alloc)),
    }
}

// The spacing, and then the content.
#[tactic(auto, using(core_means::specs::Trees::under_then, eval_places::proofs::Right::right_given, eval_places::proofs::Right::right_answered, eval_places::proofs::Right::right_found), unfolding(core_means::specs::Asks::under, body_means::specs::Views::stack))]
fn stack<L, C, F>(
    builder: &Builder<'_, L, F>,
    axis: Axis,
    alignment: Alignment,
    spacing: &Option<Core>,
    items: &[CoreItem],
    run: &mut Run,
    cells: &mut C,
) -> Result<Element, Stop>
where
    L: Cells,
    C: Cells,
    F: Fn(&Setting<'_, L>, u32, usize, &CoreItem, &mut Run, &mut C) -> ItemResult,
    requires nests { ItemNests L.map C.map builder.now.room (F.pre builder.now.item) (F.post builder.now.item) }
    requires right { Can L.map builder.now.setting.now run.old (C.map cells.old) (of_views.stack (of builder.now) axis alignment spacing.now items.now) }
    ensures does { Does L.map builder.now.setting.now run.old (C.map cells.old) (of_views.stack (of builder.now) axis alignment spacing.now items.now) result run.new (C.map cells.new) }
{
    let alloc = builder.setting.alloc;
    let spacing = number_of(builder, spacing, run, cells)?;
    let views = content(builder, items, run, cells)?;
    let numbers = spacings(alloc, axis, spacing)?;
    let node = with_numbers(alloc, NodeKind::Stack(axis, alignment), numbers);
    view(builder.setting, node, views, run, cells)
}

#[tactic(auto, using(core_means::specs::Trees::under_then, eval_places::proofs::Right::right_given, eval_places::proofs::Right::right_answered, eval_places::proofs::Right::right_found), unfolding(core_means::specs::Asks::under, body_means::specs::Views::group))]
fn group<L, C, F>(
    builder: &Builder<'_, L, F>,
    items: &[CoreItem],
    run: &mut Run,
    cells: &mut C,
) -> Result<Element, Stop>
where
    L: Cells,
    C: Cells,
    F: Fn(&Setting<'_, L>, u32, usize, &CoreItem, &mut Run, &mut C) -> ItemResult,
    requires nests { ItemNests L.map C.map builder.now.room (F.pre builder.now.item) (F.post builder.now.item) }
    requires right { Can L.map builder.now.setting.now run.old (C.map cells.old) (of_views.group (of builder.now) items.now) }
    ensures does { Does L.map builder.now.setting.now run.old (C.map cells.old) (of_views.group (of builder.now) items.now) result run.new (C.map cells.new) }
{
    let views = content(builder, items, run, cells)?;
    holding(builder.setting, NodeKind::Group, views, run, cells)
}

// The items of the piece of code of a number, which gives views.
fn items_at(program: &Program, id: CodeId) -> &Items<CoreItem>
    requires { IsSome (of_views.items_at program.now id.number) }
    ensures { of_views.items_at program.now id.number ≡ Some result.now }
{
    match code_of(program, id) {
        Some(code) => items_of(code),
        None => unreachable!(),
    }
}

// The views of items whose locals are these alone.
#[tactic(auto, using(core_means::specs::Trees::under_then, eval_places::proofs::Right::right_given, eval_places::proofs::Right::right_answered, eval_places::proofs::Right::right_found), unfolding(core_means::specs::Asks::under, core_means::specs::Means::within))]
fn views_within<L, C, F>(
    builder: &Builder<'_, L, F>,
    id: CodeId,
    locals: Items<Local>,
    items: &[CoreItem],
    run: &mut Run,
    cells: &mut C,
) -> Result<Items<Element>, Stop>
where
    L: Cells,
    C: Cells,
    F: Fn(&Setting<'_, L>, u32, usize, &CoreItem, &mut Run, &mut C) -> ItemResult,
    requires nests { ItemNests L.map C.map builder.now.room (F.pre builder.now.item) (F.post builder.now.item) }
    requires right { Can L.map builder.now.setting.now run.old (C.map cells.old) (means.within locals None (building.views_from ((of builder.now).item id.number) [] items.now)) }
    ensures does { Does L.map builder.now.setting.now run.old (C.map cells.old) (means.within locals None (building.views_from ((of builder.now).item id.number) [] items.now)) result run.new (C.map cells.new) }
{
    let locals = mem::replace(&mut run.locals, locals);
    let itself = mem::replace(&mut run.itself, None);
    let done = Items::new(builder.setting.alloc);
    let made = views(builder, id.number, done, items, run, cells)?;
    run.locals = locals;
    run.itself = itself;
    Ok(made)
}

// The views of a property or a function of the program, whose locals are its arguments alone.
#[tactic(auto, using(core_means::specs::Trees::under_then, eval_places::proofs::Right::right_given, eval_places::proofs::Right::right_answered, eval_places::proofs::Right::right_found), unfolding(core_means::specs::Asks::under, body_means::specs::Views::views_of))]
fn views_of<L, C, F>(
    builder: &Builder<'_, L, F>,
    id: CodeId,
    values: &[Value],
    run: &mut Run,
    cells: &mut C,
) -> Result<Items<Element>, Stop>
where
    L: Cells,
    C: Cells,
    F: Fn(&Setting<'_, L>, u32, usize, &CoreItem, &mut Run, &mut C) -> ItemResult,
    requires nests { ItemNests L.map C.map builder.now.room (F.pre builder.now.item) (F.post builder.now.item) }
    requires right { Can L.map builder.now.setting.now run.old (C.map cells.old) (of_views.views_of (of builder.now) id values.now) }
    ensures does { Does L.map builder.now.setting.now run.old (C.map cells.old) (of_views.views_of (of builder.now) id values.now) result run.new (C.map cells.new) }
{
    let items = items_at(builder.setting.program, id);
    let locals = held(builder.setting.alloc, values)?;
    views_within(builder, id, locals, items.as_slice(), run, cells)
}

// A use of one is a group round its views. It does not hold the arguments.
#[tactic(auto, using(core_means::specs::Trees::under_then, eval_places::proofs::Right::right_given, eval_places::proofs::Right::right_answered, eval_places::proofs::Right::right_found), unfolding(core_means::specs::Asks::under, body_means::specs::Views::builder))]
fn used<L, C, F>(
    builder: &Builder<'_, L, F>,
    id: CodeId,
    terms: &[Core],
    run: &mut Run,
    cells: &mut C,
) -> Result<Element, Stop>
where
    L: Cells,
    C: Cells,
    F: Fn(&Setting<'_, L>, u32, usize, &CoreItem, &mut Run, &mut C) -> ItemResult,
    requires nests { ItemNests L.map C.map builder.now.room (F.pre builder.now.item) (F.post builder.now.item) }
    requires right { Can L.map builder.now.setting.now run.old (C.map cells.old) (of_views.builder (of builder.now) id terms.now) }
    ensures does { Does L.map builder.now.setting.now run.old (C.map cells.old) (of_views.builder (of builder.now) id terms.now) result run.new (C.map cells.new) }
{
    let none = Items::new(builder.setting.alloc);
    let values = values_to(builder.setting, builder.room, none, terms, run, cells)?;
    let made = views_of(builder, id, values.as_slice(), run, cells)?;
    holding(builder.setting, NodeKind::Group, made, run, cells)
}

// A node that holds nothing.
#[tactic(auto, using(core_means::specs::Trees::under_then, eval_places::proofs::Right::right_given, eval_places::proofs::Right::right_answered, eval_places::proofs::Right::right_found), unfolding(core_means::specs::Asks::under))]
fn bare<L: Cells, C: Cells, F>(
    builder: &Builder<'_, L, F>,
    kind: NodeKind,
    run: &mut Run,
    cells: &mut C,
) -> Result<Element, Stop>
    ensures does { Does L.map builder.now.setting.now run.old (C.map cells.old) (elements.view kind [] [] [] []) result run.new (C.map cells.new) }
{
    let none = Items::new(builder.setting.alloc);
    holding(builder.setting, kind, none, run, cells)
}

/// A view before its modifiers.
#[tactic(auto, using(core_means::specs::Trees::under_then, eval_places::proofs::Right::right_given, eval_places::proofs::Right::right_answered, eval_places::proofs::Right::right_found), unfolding(core_means::specs::Asks::under, body_means::specs::Views::view_form))]
pub fn view_form<L, C, F>(
    builder: &Builder<'_, L, F>,
    view: &ViewCall,
    run: &mut Run,
    cells: &mut C,
) -> Result<Element, Stop>
where
    L: Cells,
    C: Cells,
    F: Fn(&Setting<'_, L>, u32, usize, &CoreItem, &mut Run, &mut C) -> ItemResult,
    requires nests { ItemNests L.map C.map builder.now.room (F.pre builder.now.item) (F.post builder.now.item) }
    requires right { Can L.map builder.now.setting.now run.old (C.map cells.old) (of_views.view_form (of builder.now) view.now) }
    ensures does { Does L.map builder.now.setting.now run.old (C.map cells.old) (of_views.view_form (of builder.now) view.now) result run.new (C.map cells.new) }
{
    match view {
        ViewCall::Text(term) => text_view(builder, term, run, cells),
        ViewCall::Image(name) => image(builder, name, run, cells),
        ViewCall::Button(id, label) => button(builder, *id, label, run, cells),
        ViewCall::Toggle(target, label) => toggle(builder, target, label, run, cells),
        ViewCall::Spacer(length) => spacer(builder, length, run, cells),
        ViewCall::Rectangle => bare(builder, NodeKind::Rectangle, run, cells),
        ViewCall::Empty => bare(builder, NodeKind::Empty, run, cells),
        ViewCall::Stack(axis, at, spacing, items) => {
            stack(builder, *axis, *at, spacing, items.as_slice(), run, cells)
        }
        ViewCall::Group(items) => group(builder, items.as_slice(), run, cells),
        ViewCall::ForEach(over, items) => for_each(builder, over, items.as_slice(), run, cells),
        ViewCall::Custom(id, fillings) => {
            custom_view(builder, *id, fillings.as_slice(), run, cells)
        }
        ViewCall::Builder(id, terms) => used(builder, *id, terms.as_slice(), run, cells),
    }
}
