// How the tables spell values, answers, descriptions and what a body looked up.
use core_means::{Origin, Read, Reads};
use identity_path::{Input, Step};
use std::alloc::{AllocError, Global};
use sv_value::{Value, Values, push_separator};
use swift_core::PlaceRule;
use value_calls::Stop;
use view_nodes::{Custom, Desc, Element, Label, ModifierKind, NodeKind, Reader};

// A list is `[3, 4]`, a filled optional `some 3`, a struct `(3, true)` by its fields and a case `case 0` by its place.
#[cycle(values)]
fn show(value: &Value, out: &mut String) -> Result<(), AllocError> {
    match value {
        Value::Int(number) => write!(out, "{number}"),
        Value::Bool(true) => out.push_str("true"),
        Value::Bool(false) => out.push_str("false"),
        Value::Str(text) => show_text(text.as_str(), out),
        Value::List(parts) => {
            out.push_str("[")?;
            show_all(parts.as_slice(), out)?;
            out.push_str("]")
        }
        Value::Opt(None) => out.push_str("nil"),
        Value::Opt(Some(part)) => {
            out.push_str("some ")?;
            show(part.get(), out)
        }
        Value::Struct { kind: _, fields } => {
            out.push_str("(")?;
            show_all(fields.as_slice(), out)?;
            out.push_str(")")
        }
        Value::Case { kind: _, place } => write!(out, "case {place}"),
    }
}

#[cycle(values)]
fn show_all(parts: &[Value], out: &mut String) -> Result<(), AllocError> {
    for i in 0..parts.len() {
        push_separator(i, ", ", out)?;
        show(&parts[i], out)?;
    }
    Ok(())
}

fn show_text(text: &str, out: &mut String) -> Result<(), AllocError> {
    out.push_str("\"")?;
    out.push_str(text)?;
    out.push_str("\"")
}

// A place shows its slot and how many hops lead on from it.
fn show_input(input: &Input, out: &mut String) -> Result<(), AllocError> {
    match input {
        Input::Value(value) => show(value, out),
        Input::Place(place) => {
            let slot = place.slot;
            let hops = place.hops.len();
            write!(out, "place {slot}.{hops}")
        }
    }
}

// The word of a stop.
fn show_stop(stop: Stop, out: &mut String) -> Result<(), AllocError> {
    match stop {
        Stop::Trap(kind) => {
            out.push_str("trap ")?;
            out.push_str(kind.word())
        }
        Stop::OutOfMemory => Err(AllocError),
    }
}

// What an evaluation answered: the value, its trap, or that it was refused.
pub fn told(alloc: Global, answer: Option<Result<Value, Stop>>) -> Result<String, AllocError> {
    let mut out = String::new(alloc);
    match answer {
        Some(Ok(value)) => show(&value, &mut out)?,
        Some(Err(stop)) => show_stop(stop, &mut out)?,
        None => out.push_str("refused")?,
    }
    Ok(out)
}

fn show_step(step: &Step, out: &mut String) -> Result<(), AllocError> {
    match step {
        Step::Child(i) => write!(out, "{i}"),
        Step::Branch(k) => write!(out, "?{k}"),
        Step::Item(id, again) => {
            out.push_str("[")?;
            show(id, out)?;
            write!(out, ";{again}]")
        }
        Step::Id(id) => {
            out.push_str("=")?;
            show(id, out)
        }
        Step::View(view) => write!(out, "#{view}"),
        Step::Overlay(n) => write!(out, "+{n}"),
        Step::Background(n) => write!(out, "-{n}"),
        Step::Pref(n) => write!(out, "^{n}"),
    }
}

fn show_steps(steps: &[Step], out: &mut String) -> Result<(), AllocError> {
    for step in steps {
        out.push_str("/")?;
        show_step(step, out)?;
    }
    out.push_str(" ")
}

fn view_word(kind: NodeKind) -> &'static str {
    match kind {
        NodeKind::Text => "text",
        NodeKind::Image => "image",
        NodeKind::Button => "button",
        NodeKind::Toggle => "toggle",
        NodeKind::Spacer => "spacer",
        NodeKind::Rectangle => "rectangle",
        NodeKind::Empty => "empty",
        NodeKind::Stack(_, _) => "stack",
        NodeKind::Group => "group",
        NodeKind::Branches => "branches",
        NodeKind::ForEach => "foreach",
        NodeKind::Item => "item",
    }
}

fn modifier_word(kind: &ModifierKind) -> &'static str {
    match kind {
        ModifierKind::Padding(_) => "padding",
        ModifierKind::Id => "id",
        ModifierKind::Overlay(_) => "overlay",
        ModifierKind::OnTapGesture => "tap",
        _ => "modifier",
    }
}

fn show_inputs(inputs: &[Input], out: &mut String) -> Result<(), AllocError> {
    for input in inputs {
        out.push_str(" ")?;
        show_input(input, out)?;
    }
    Ok(())
}

fn show_numbers(numbers: &[Option<i64>], out: &mut String) -> Result<(), AllocError> {
    for number in numbers {
        match number {
            Some(number) => write!(out, " {number}")?,
            None => out.push_str(" -")?,
        }
    }
    Ok(())
}

// The word of a node, its inputs and its numbers.
fn show_label(label: &Label, out: &mut String) -> Result<(), AllocError> {
    match label {
        Label::View(node) => {
            out.push_str(view_word(node.kind))?;
            show_inputs(node.inputs.as_slice(), out)?;
            show_numbers(node.numbers.as_slice(), out)
        }
        Label::Modifier(modifier) => {
            out.push_str(modifier_word(&modifier.kind))?;
            show_inputs(modifier.inputs.as_slice(), out)?;
            show_numbers(modifier.numbers.as_slice(), out)
        }
    }
}

// The inputs of a custom view, and the initial values of its slots behind `with`.
fn show_custom(custom: &Custom, out: &mut String) -> Result<(), AllocError> {
    out.push_str("custom")?;
    show_inputs(custom.inputs.as_slice(), out)?;
    out.push_str(" with ")?;
    show_all(custom.initials.as_slice(), out)
}

fn show_reader(reader: &Reader, out: &mut String) -> Result<(), AllocError> {
    let key = reader.key;
    write!(out, "reader {key}")?;
    show_inputs(reader.captured.as_slice(), out)
}

// A node with the steps by which its path goes on, and what it holds in braces.
#[cycle(elements)]
fn show_element(element: &Element, out: &mut String) -> Result<(), AllocError> {
    match element {
        Element::Plain {
            steps,
            label,
            parts,
        } => {
            show_steps(steps.as_slice(), out)?;
            show_label(label, out)?;
            show_held(parts.as_slice(), out)
        }
        Element::Custom { steps, custom } => {
            show_steps(steps.as_slice(), out)?;
            show_custom(custom, out)
        }
        Element::Reader {
            steps,
            reader,
            content,
        } => {
            show_steps(steps.as_slice(), out)?;
            show_reader(reader, out)?;
            out.push_str(" {")?;
            show_element(content.get(), out)?;
            out.push_str("}")
        }
    }
}

#[cycle(elements)]
fn show_held(parts: &[Element], out: &mut String) -> Result<(), AllocError> {
    for part in parts {
        out.push_str(" {")?;
        show_element(part, out)?;
        out.push_str("}")?;
    }
    Ok(())
}

// The root views of a description.
fn show_views(views: &[Element], out: &mut String) -> Result<(), AllocError> {
    for view in views {
        out.push_str("{")?;
        show_element(view, out)?;
        out.push_str("}")?;
    }
    Ok(())
}

fn show_origin(origin: &Origin, out: &mut String) -> Result<(), AllocError> {
    match origin {
        Origin::Input(at) => write!(out, "input {at}"),
        Origin::Slot(PlaceRule::Own(slot)) => write!(out, "slot {slot}"),
        Origin::Slot(PlaceRule::Shared(slot)) => write!(out, "shared {slot}"),
        Origin::Place(place) => {
            let slot = place.slot;
            write!(out, "place {slot}")
        }
        Origin::Environment(key) => write!(out, "key {key}"),
        Origin::Captured(at) => write!(out, "captured {at}"),
        Origin::Preference => out.push_str("preference"),
    }
}

// What was looked up, each source with what was there.
fn show_reads(reads: &[Read], out: &mut String) -> Result<(), AllocError> {
    for read in reads {
        out.push_str("; ")?;
        show_origin(&read.origin, out)?;
        out.push_str(" = ")?;
        show_input(&read.input, out)?;
    }
    Ok(())
}

// The description of a body and what it looked up, its trap, or that it was refused.
pub fn told_body(
    alloc: Global,
    answer: Option<Result<(Desc, Reads), Stop>>,
) -> Result<String, AllocError> {
    let mut out = String::new(alloc);
    match answer {
        Some(Ok((views, reads))) => {
            show_views(views.as_slice(), &mut out)?;
            show_reads(reads.as_slice(), &mut out)?;
        }
        Some(Err(stop)) => show_stop(stop, &mut out)?,
        None => out.push_str("refused")?,
    }
    Ok(out)
}

// How a block ended, and the cells after it.
pub fn told_block(
    alloc: Global,
    answer: Option<Result<(), Stop>>,
    cells: Option<&Values>,
) -> Result<String, AllocError> {
    let mut out = String::new(alloc);
    match answer {
        Some(Ok(())) => out.push_str("ended")?,
        Some(Err(stop)) => show_stop(stop, &mut out)?,
        None => out.push_str("refused")?,
    }
    out.push_str(": ")?;
    if let Some(cells) = cells {
        show_all(cells.as_slice(), &mut out)?;
    }
    Ok(out)
}
