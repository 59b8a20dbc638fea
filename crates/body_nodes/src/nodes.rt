ghost use Rattle.std.specs.Prelude.{◌≡◌, [], ◌∷◌, IfOk};
ghost use Rattle.body_means.specs.Elements as elements;
ghost use Rattle.eval_places.specs.Runs.{Does};
ghost use Rattle.view_nodes.specs.Counts.{label_count, custom_count, reader_count};

use core_means::Run;
use eval_places::Setting;
use identity_path::{Cells, Input, Inputs, Step};
use std::alloc::{AllocError, Global};
use sv_items::{Boxed, Items};
use sv_value::Value;
use value_calls::{Stop, TrapKind};
use view_nodes::{Custom, Element, Label, Modifier, Node, NodeKind, Reader};

// Counts a node that is made.
#[tactic(auto, unfolding(core_means::specs::Asks::under, body_means::specs::Elements::tally))]
fn tally<L: Cells, C: Cells>(
    setting: &Setting<'_, L>,
    count: u32,
    run: &mut Run,
    _cells: &mut C,
) -> Result<(), Stop>
    ensures does { Does L.map setting.now run.old (C.map _cells.old) (elements.tally count) result run.new (C.map _cells.new) }
{
    let nodes = run.nodes.saturating_add(count);
    if nodes > 20_000 {
        return Err(Stop::Trap(TrapKind::Nodes));
    }
    run.nodes = nodes;
    Ok(())
}

fn tally_label<L: Cells, C: Cells>(
    setting: &Setting<'_, L>,
    label: &Label,
    run: &mut Run,
    cells: &mut C,
) -> Result<(), Stop>
    ensures does { Does L.map setting.now run.old (C.map cells.old) (elements.tally (label_count label.now)) result run.new (C.map cells.new) }
{
    tally(setting, label.count(), run, cells)
}

fn tally_custom<L: Cells, C: Cells>(
    setting: &Setting<'_, L>,
    custom: &Custom,
    run: &mut Run,
    cells: &mut C,
) -> Result<(), Stop>
    ensures does { Does L.map setting.now run.old (C.map cells.old) (elements.tally (custom_count custom.now)) result run.new (C.map cells.new) }
{
    tally(setting, custom.count(), run, cells)
}

fn tally_reader<L: Cells, C: Cells>(
    setting: &Setting<'_, L>,
    reader: &Reader,
    run: &mut Run,
    cells: &mut C,
) -> Result<(), Stop>
    ensures does { Does L.map setting.now run.old (C.map cells.old) (elements.tally (reader_count reader.now)) result run.new (C.map cells.new) }
{
    tally(setting, reader.count(), run, cells)
}

/// A node without steps, which is counted.
#[tactic(auto, using(core_means::specs::Trees::under_then), unfolding(core_means::specs::Asks::under, body_means::specs::Elements::plain))]
pub fn plain<L: Cells, C: Cells>(
    setting: &Setting<'_, L>,
    label: Label,
    parts: Items<Element>,
    run: &mut Run,
    cells: &mut C,
) -> Result<Element, Stop>
    ensures does { Does L.map setting.now run.old (C.map cells.old) (elements.plain label parts) result run.new (C.map cells.new) }
{
    match tally_label(setting, &label, run, cells) {
        Ok(()) => Ok(Element::Plain {
            steps: Items::new(setting.alloc),
            label,
            parts,
        }),
        Err(stop) => {
            drop(label);
            drop(parts);
            Err(stop)
        }
    }
}

/// A view.
#[tactic(auto, unfolding(body_means::specs::Elements::view))]
pub fn view<L: Cells, C: Cells>(
    setting: &Setting<'_, L>,
    node: Node,
    parts: Items<Element>,
    run: &mut Run,
    cells: &mut C,
) -> Result<Element, Stop>
    ensures does { Does L.map setting.now run.old (C.map cells.old) (elements.view node.kind node.inputs node.numbers node.blocks parts) result run.new (C.map cells.new) }
{
    plain(setting, Label::View(node), parts, run, cells)
}

/// A view that holds nothing but further nodes.
pub fn holding<L: Cells, C: Cells>(
    setting: &Setting<'_, L>,
    kind: NodeKind,
    parts: Items<Element>,
    run: &mut Run,
    cells: &mut C,
) -> Result<Element, Stop>
    ensures does { Does L.map setting.now run.old (C.map cells.old) (elements.view kind [] [] [] parts) result run.new (C.map cells.new) }
{
    let node = Node {
        kind,
        inputs: Items::new(setting.alloc),
        numbers: Items::new(setting.alloc),
        blocks: Items::new(setting.alloc),
    };
    view(setting, node, parts, run, cells)
}

fn one_value(alloc: Global, value: Value) -> Result<Inputs, AllocError>
    ensures value { IfOk result (λ inputs. inputs ≡ Input.Value value ∷ []) }
{
    let mut inputs = Items::new(alloc);
    inputs.push(Input::Value(value))?;
    Ok(inputs)
}

fn one_step(alloc: Global, step: Step) -> Result<Items<Step>, AllocError>
    ensures value { IfOk result (λ steps. steps ≡ step ∷ []) }
{
    let mut steps = Items::new(alloc);
    steps.push(step)?;
    Ok(steps)
}

/// A view that holds a value.
pub fn showing<L: Cells, C: Cells>(
    setting: &Setting<'_, L>,
    kind: NodeKind,
    value: Value,
    parts: Items<Element>,
    run: &mut Run,
    cells: &mut C,
) -> Result<Element, Stop>
    ensures does { Does L.map setting.now run.old (C.map cells.old) (elements.view kind (Input.Value value ∷ []) [] [] parts) result run.new (C.map cells.new) }
{
    let inputs = one_value(setting.alloc, value)?;
    let node = Node {
        kind,
        inputs,
        numbers: Items::new(setting.alloc),
        blocks: Items::new(setting.alloc),
    };
    view(setting, node, parts, run, cells)
}

/// A text, which holds its string.
#[tactic(auto, unfolding(body_means::specs::Elements::text))]
pub fn text<L: Cells, C: Cells>(
    setting: &Setting<'_, L>,
    value: Value,
    run: &mut Run,
    cells: &mut C,
) -> Result<Element, Stop>
    ensures does { Does L.map setting.now run.old (C.map cells.old) (elements.text value) result run.new (C.map cells.new) }
{
    let parts = Items::new(setting.alloc);
    showing(setting, NodeKind::Text, value, parts, run, cells)
}

/// A modifier round its content.
#[tactic(auto, unfolding(body_means::specs::Elements::modifier))]
pub fn modifier<L: Cells, C: Cells>(
    setting: &Setting<'_, L>,
    modifier: Modifier,
    parts: Items<Element>,
    run: &mut Run,
    cells: &mut C,
) -> Result<Element, Stop>
    ensures does { Does L.map setting.now run.old (C.map cells.old) (elements.modifier modifier.kind modifier.number modifier.inputs modifier.numbers modifier.blocks parts) result run.new (C.map cells.new) }
{
    plain(setting, Label::Modifier(modifier), parts, run, cells)
}

fn under_view(alloc: Global, declaration: u32, custom: Custom) -> Result<Element, AllocError>
    ensures value { IfOk result (λ made. made ≡ Element.Custom (Step.View declaration ∷ []) custom) }
{
    let steps = one_step(alloc, Step::View(declaration))?;
    Ok(Element::Custom { steps, custom })
}

/// The use of a custom view, under the step that names it.
#[tactic(auto, using(core_means::specs::Trees::under_then), unfolding(core_means::specs::Asks::under, body_means::specs::Elements::custom))]
pub fn custom<L: Cells, C: Cells>(
    setting: &Setting<'_, L>,
    declaration: u32,
    custom: Custom,
    run: &mut Run,
    cells: &mut C,
) -> Result<Element, Stop>
    ensures does { Does L.map setting.now run.old (C.map cells.old) (elements.custom declaration custom) result run.new (C.map cells.new) }
{
    tally_custom(setting, &custom, run, cells)?;
    Ok(under_view(setting.alloc, declaration, custom)?)
}

fn reading(alloc: Global, reader: Reader, content: Element) -> Result<Element, AllocError>
    ensures value { IfOk result (λ made. made ≡ Element.Reader [] reader content) }
{
    let content = Boxed::new(alloc, content)?;
    Ok(Element::Reader {
        steps: Items::new(alloc),
        reader,
        content,
    })
}

/// A preference reader round its content.
#[tactic(auto, using(core_means::specs::Trees::under_then), unfolding(core_means::specs::Asks::under, body_means::specs::Elements::reader))]
pub fn reader<L: Cells, C: Cells>(
    setting: &Setting<'_, L>,
    reader: Reader,
    content: Element,
    run: &mut Run,
    cells: &mut C,
) -> Result<Element, Stop>
    ensures does { Does L.map setting.now run.old (C.map cells.old) (elements.reader reader content) result run.new (C.map cells.new) }
{
    match tally_reader(setting, &reader, run, cells) {
        Ok(()) => Ok(reading(setting.alloc, reader, content)?),
        Err(stop) => {
            drop(reader);
            drop(content);
            Err(stop)
        }
    }
}
