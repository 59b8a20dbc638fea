ghost use Rattle.std.specs.Prelude.{◌≡◌, [], ◌∷◌, IfOk, OnOk};
ghost use Rattle.body_means.specs.Elements as elements;

use identity_path::Step;
use std::alloc::{AllocError, Global};
use sv_items::{Boxed, Items};
use view_nodes::{Custom, Element, Label, Reader};

/// A number of a step or of a modifier. What is greater than 2^32 - 1 stays there.
pub fn narrow(number: usize) -> u32
    ensures value { result ≡ elements.narrow number }
{
    number.min(4_294_967_295) as u32
}

fn prefixed(alloc: Global, step: Step, steps: Items<Step>) -> Result<Items<Step>, AllocError>
    ensures value { IfOk result (λ all. all ≡ step ∷ steps) }
{
    let mut all = Items::new(alloc);
    all.push(step)?;
    all.append(steps)?;
    Ok(all)
}

fn plain_led(
    alloc: Global,
    step: Step,
    steps: Items<Step>,
    label: Label,
    parts: Items<Element>,
) -> Result<Element, AllocError>
    ensures value { IfOk result (λ made. made ≡ Element.Plain (step ∷ steps) label parts) }
{
    match prefixed(alloc, step, steps) {
        Ok(steps) => Ok(Element::Plain {
            steps,
            label,
            parts,
        }),
        Err(refused) => {
            drop(label);
            drop(parts);
            Err(refused)
        }
    }
}

fn custom_led(
    alloc: Global,
    step: Step,
    steps: Items<Step>,
    custom: Custom,
) -> Result<Element, AllocError>
    ensures value { IfOk result (λ made. made ≡ Element.Custom (step ∷ steps) custom) }
{
    let steps = prefixed(alloc, step, steps)?;
    Ok(Element::Custom { steps, custom })
}

fn reader_led(
    alloc: Global,
    step: Step,
    steps: Items<Step>,
    reader: Reader,
    content: Boxed<Element>,
) -> Result<Element, AllocError>
    ensures value { IfOk result (λ made. made ≡ Element.Reader (step ∷ steps) reader content) }
{
    let steps = prefixed(alloc, step, steps)?;
    Ok(Element::Reader {
        steps,
        reader,
        content,
    })
}

/// The node with this step before its own.
#[tactic(auto, unfolding(body_means::specs::Elements::led))]
pub fn led(alloc: Global, step: Step, element: Element) -> Result<Element, AllocError>
    ensures value { IfOk result (λ made. made ≡ elements.led (step ∷ []) element) }
{
    match element {
        Element::Plain {
            steps,
            label,
            parts,
        } => plain_led(alloc, step, steps, label, parts),
        Element::Custom { steps, custom } => custom_led(alloc, step, steps, custom),
        Element::Reader {
            steps,
            reader,
            content,
        } => reader_led(alloc, step, steps, reader, content),
    }
}

/// Each node with this step before its own.
#[tactic(auto, unfolding(body_means::specs::Elements::all_led))]
pub fn all_led(
    alloc: Global,
    step: &Step,
    views: Items<Element>,
) -> Result<Items<Element>, AllocError>
    ensures value { IfOk result (λ made. made ≡ elements.all_led (step.now ∷ []) views) }
{
    let mut done = Items::new(alloc);
    let all = views.into_vec();
    for view in all {
        let copy = step.copy(alloc)?;
        let made = led(alloc, copy, view)?;
        done.push(made)?;
    }
    Ok(done)
}

/// Adds the view of an item under its step. A `let` gives none.
pub fn push_child(
    alloc: Global,
    views: &mut Items<Element>,
    made: Option<Element>,
) -> Result<(), AllocError>
    ensures ok { OnOk result (views.new ≡ elements.with_child views.old made) }
{
    match made {
        Some(element) => {
            let step = Step::Child(narrow(views.len()));
            let made = led(alloc, step, element)?;
            views.push(made)?;
            Ok(())
        }
        None => Ok(()),
    }
}
