ghost use Rattle.body_means.specs.Customs as customs;
ghost use Rattle.body_parts.specs.Arms as arms;
ghost use Rattle.body_parts.specs.Nests.{of};
ghost use Rattle.eval_places.specs.Runs.{Can, Does};

use crate::binding::place_to;
use crate::builder::Builder;
use body_nodes::{custom, custom_of};
use core_means::Run;
use eval_places::Setting;
use expr_eval::{eval_to, initial_to};
use identity_path::{Cells, Input, Inputs};
use sv_items::Items;
use sv_value::Value;
use swift_core::{CodeId, Core, Declaration, Filling, Target};
use value_calls::Stop;
use view_nodes::Element;

// The value of an expression, as an argument.
#[tactic(auto, using(core_means::specs::Trees::under_then), unfolding(core_means::specs::Asks::under))]
fn value_given<L: Cells, C: Cells, F>(
    builder: &Builder<'_, L, F>,
    term: &Core,
    run: &mut Run,
    cells: &mut C,
) -> Result<Option<Input>, Stop>
    requires right { Can L.map builder.now.setting.now run.old (C.map cells.old) (arms.value_given (of builder.now) term.now) }
    ensures does { Does L.map builder.now.setting.now run.old (C.map cells.old) (arms.value_given (of builder.now) term.now) result run.new (C.map cells.new) }
{
    let value = eval_to(builder.setting, builder.room, term, run, cells)?;
    Ok(Some(Input::Value(value)))
}

// The place that a binding is, as an argument.
#[tactic(auto, using(core_means::specs::Trees::under_then), unfolding(core_means::specs::Asks::under))]
fn place_given<L: Cells, C: Cells, F>(
    builder: &Builder<'_, L, F>,
    target: &Target,
    run: &mut Run,
    cells: &mut C,
) -> Result<Option<Input>, Stop>
    requires right { Can L.map builder.now.setting.now run.old (C.map cells.old) (arms.place_given (of builder.now) target.now) }
    ensures does { Does L.map builder.now.setting.now run.old (C.map cells.old) (arms.place_given (of builder.now) target.now) result run.new (C.map cells.new) }
{
    let place = place_to(builder.setting, builder.room, target, run, cells)?;
    Ok(Some(Input::Place(place)))
}

// An argument is a value, or for a binding the place that it is.
#[tactic(auto, using(core_means::specs::Trees::under_then), unfolding(core_means::specs::Asks::under, body_means::specs::Customs::argument))]
fn argument<L: Cells, C: Cells, F>(
    builder: &Builder<'_, L, F>,
    filling: &Filling,
    run: &mut Run,
    cells: &mut C,
) -> Result<Option<Input>, Stop>
    requires right { Can L.map builder.now.setting.now run.old (C.map cells.old) (customs.argument (of builder.now) filling.now) }
    ensures does { Does L.map builder.now.setting.now run.old (C.map cells.old) (customs.argument (of builder.now) filling.now) result run.new (C.map cells.new) }
{
    match filling {
        Filling::Given(term) => value_given(builder, term, run, cells),
        Filling::Place(target) => place_given(builder, target, run, cells),
        Filling::Initial(_) => Ok(None),
        Filling::Nil => Ok(None),
    }
}

// The arguments from left to right, behind those that are done.
#[tactic(auto, using(core_means::specs::Trees::under_then), unfolding(core_means::specs::Asks::under, body_means::specs::Customs::arguments_from))]
fn arguments<L: Cells, C: Cells, F>(
    builder: &Builder<'_, L, F>,
    mut done: Items<Option<Input>>,
    mut rest: &[Filling],
    run: &mut Run,
    cells: &mut C,
) -> Result<Items<Option<Input>>, Stop>
    requires right { Can L.map builder.now.setting.now run.old (C.map cells.old) (customs.arguments_from (of builder.now) done rest.now) }
    ensures does { Does L.map builder.now.setting.now run.old (C.map cells.old) (customs.arguments_from (of builder.now) done rest.entry.now) result run.new (C.map cells.new) }
{
    while let [filling, more @ ..] = rest {
        let input = argument(builder, filling, run, cells)?;
        done.push(input)?;
        rest = more;
    }
    Ok(done)
}

// An initial value, as what fills a property.
#[tactic(auto, using(core_means::specs::Trees::under_then), unfolding(core_means::specs::Asks::under))]
fn initial_input<L: Cells, C: Cells, F>(
    builder: &Builder<'_, L, F>,
    id: CodeId,
    run: &mut Run,
    cells: &mut C,
) -> Result<Input, Stop>
    requires right { Can L.map builder.now.setting.now run.old (C.map cells.old) (arms.initial_input (of builder.now) id.number) }
    ensures does { Does L.map builder.now.setting.now run.old (C.map cells.old) (arms.initial_input (of builder.now) id.number) result run.new (C.map cells.new) }
{
    let value = initial_to(builder.setting, builder.room, id, run, cells)?;
    Ok(Input::Value(value))
}

// The argument, or else the initial value.
#[tactic(auto, using(core_means::specs::Trees::under_then), unfolding(core_means::specs::Asks::under, body_means::specs::Customs::filled))]
fn fill<L: Cells, C: Cells, F>(
    builder: &Builder<'_, L, F>,
    filling: &Filling,
    argument: &Option<Input>,
    run: &mut Run,
    cells: &mut C,
) -> Result<Input, Stop>
    requires right { Can L.map builder.now.setting.now run.old (C.map cells.old) (customs.filled (of builder.now) filling.now argument.now) }
    ensures does { Does L.map builder.now.setting.now run.old (C.map cells.old) (customs.filled (of builder.now) filling.now argument.now) result run.new (C.map cells.new) }
{
    match argument {
        Some(input) => Ok(input.copy(builder.setting.alloc)?),
        None => match filling {
            Filling::Initial(id) => initial_input(builder, *id, run, cells),
            Filling::Nil => Ok(Input::Value(Value::Opt(None))),
            Filling::Given(_) => unreachable!(),
            Filling::Place(_) => unreachable!(),
        },
    }
}

// What fills the properties, bindings and slots, behind what is done.
#[tactic(auto, using(core_means::specs::Trees::under_then), unfolding(core_means::specs::Asks::under, body_means::specs::Customs::filled_from))]
fn all_filled<L: Cells, C: Cells, F>(
    builder: &Builder<'_, L, F>,
    mut done: Inputs,
    mut rest: &[Filling],
    mut given: &[Option<Input>],
    run: &mut Run,
    cells: &mut C,
) -> Result<Inputs, Stop>
    requires right { Can L.map builder.now.setting.now run.old (C.map cells.old) (customs.filled_from (of builder.now) done rest.now given.now) }
    ensures does { Does L.map builder.now.setting.now run.old (C.map cells.old) (customs.filled_from (of builder.now) done rest.entry.now given.entry.now) result run.new (C.map cells.new) }
{
    while let [filling, more @ ..] = rest {
        let [argument, others @ ..] = given else {
            unreachable!()
        };
        let input = fill(builder, filling, argument, run, cells)?;
        done.push(input)?;
        rest = more;
        given = others;
    }
    Ok(done)
}

// First the arguments, and then the initial values.
#[tactic(auto, using(core_means::specs::Trees::under_then), unfolding(core_means::specs::Asks::under, body_means::specs::Customs::fillings))]
fn fillings<L: Cells, C: Cells, F>(
    builder: &Builder<'_, L, F>,
    all: &[Filling],
    run: &mut Run,
    cells: &mut C,
) -> Result<Inputs, Stop>
    requires right { Can L.map builder.now.setting.now run.old (C.map cells.old) (customs.fillings (of builder.now) all.now) }
    ensures does { Does L.map builder.now.setting.now run.old (C.map cells.old) (customs.fillings (of builder.now) all.now) result run.new (C.map cells.new) }
{
    let none = Items::new(builder.setting.alloc);
    let given = arguments(builder, none, all, run, cells)?;
    let done = Items::new(builder.setting.alloc);
    all_filled(builder, done, all, given.as_slice(), run, cells)
}

// The node of a use of this view.
#[tactic(auto, using(eval_places::proofs::Right::right_found), unfolding(core_means::specs::Asks::under))]
fn custom_by<L: Cells, C: Cells>(
    setting: &Setting<'_, L>,
    declaration: u32,
    found: &Declaration,
    inputs: &[Input],
    run: &mut Run,
    cells: &mut C,
) -> Result<Element, Stop>
    requires right { Can L.map setting.now run.old (C.map cells.old) (arms.custom_by declaration found.now inputs.now) }
    ensures does { Does L.map setting.now run.old (C.map cells.old) (arms.custom_by declaration found.now inputs.now) result run.new (C.map cells.new) }
{
    let made = custom_of(setting.alloc, found, inputs)?;
    custom(setting, declaration, made, run, cells)
}

// The node of a use of the view with this number.
#[tactic(auto, unfolding(core_means::specs::Asks::under, body_means::specs::Customs::custom_node))]
fn custom_node<L: Cells, C: Cells, F>(
    builder: &Builder<'_, L, F>,
    declaration: u32,
    inputs: &[Input],
    run: &mut Run,
    cells: &mut C,
) -> Result<Element, Stop>
    requires right { Can L.map builder.now.setting.now run.old (C.map cells.old) (customs.custom_node (of builder.now) declaration inputs.now) }
    ensures does { Does L.map builder.now.setting.now run.old (C.map cells.old) (customs.custom_node (of builder.now) declaration inputs.now) result run.new (C.map cells.new) }
{
    let table = builder.setting.program.table();
    match table.declarations.get(declaration as usize) {
        Some(found) => custom_by(builder.setting, declaration, found, inputs, run, cells),
        None => unreachable!(),
    }
}

/// The use of a custom view, which holds all its stored properties, bindings and initial values.
#[tactic(auto, using(core_means::specs::Trees::under_then), unfolding(core_means::specs::Asks::under, body_means::specs::Customs::custom_view))]
pub fn custom_view<L: Cells, C: Cells, F>(
    builder: &Builder<'_, L, F>,
    declaration: u32,
    all: &[Filling],
    run: &mut Run,
    cells: &mut C,
) -> Result<Element, Stop>
    requires right { Can L.map builder.now.setting.now run.old (C.map cells.old) (customs.custom_view (of builder.now) declaration all.now) }
    ensures does { Does L.map builder.now.setting.now run.old (C.map cells.old) (customs.custom_view (of builder.now) declaration all.now) result run.new (C.map cells.new) }
{
    let inputs = fillings(builder, all, run, cells)?;
    custom_node(builder, declaration, inputs.as_slice(), run, cells)
}
