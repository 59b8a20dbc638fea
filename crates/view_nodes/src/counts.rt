ghost use Rattle.std.specs.Prelude.{◌≡◌, min, map, sum};
ghost use Rattle.view_nodes.specs.Counts.{input_weight, inputs_weight, number_weight, handler_weight, held_weight, counted, label_count, custom_count, reader_count};

use crate::node::{Custom, Handler, Label, Reader};
use identity_path::Input;
use sv_value::weight_of_all;

fn weigh_input(input: &Input) -> u64
    ensures { result ≡ min (input_weight input.now) 18446744073709551615 }
{
    match input {
        Input::Value(value) => value.weight(),
        Input::Place(_) => 0,
    }
}

fn weigh_inputs(inputs: &[Input]) -> u64
    ensures { result ≡ min (inputs_weight inputs.now) 18446744073709551615 }
{
    let mut total: u64 = 0;
    for input in inputs {
        total = total.saturating_add(weigh_input(input));
    }
    total
}

fn weigh_number(number: Option<i64>) -> u64
    ensures { result ≡ number_weight number }
{
    match number {
        Some(_) => 1,
        None => 0,
    }
}

fn weigh_numbers(numbers: &[Option<i64>]) -> u64
    ensures { result ≡ min (sum (map number_weight numbers.now)) 18446744073709551615 }
{
    match numbers {
        [number, rest @ ..] => weigh_number(*number).saturating_add(weigh_numbers(rest)),
        [] => 0,
    }
}

fn weigh_blocks(blocks: &[Handler]) -> u64
    ensures { result ≡ min (sum (map handler_weight blocks.now)) 18446744073709551615 }
{
    let mut total: u64 = 0;
    for block in blocks {
        total = total.saturating_add(weigh_inputs(block.locals.as_slice()));
    }
    total
}

fn weigh(inputs: &[Input], numbers: &[Option<i64>], blocks: &[Handler]) -> u64
    ensures { result ≡ min (held_weight inputs.now numbers.now blocks.now) 18446744073709551615 }
{
    weigh_inputs(inputs)
        .saturating_add(weigh_numbers(numbers))
        .saturating_add(weigh_blocks(blocks))
}

/// The count of a node that holds this weight, or 20,001 where it counts more.
fn counted_up(weight: u64) -> u32
    ensures { result ≡ min (counted weight) 20001 }
{
    (weight / 64).min(20_000) as u32 + 1
}

impl Label {
    /// How much the node counts: 1, and 1 for each whole 64 of the weight of what it holds. 20,001 stands for all that is more.
    #[tactic(auto, using(crate::proofs::CountSteps::counted_cut))]
    pub fn count(&self) -> u32
        ensures value { result ≡ min (label_count self.now) 20001 }
    {
        match self {
            Label::View(node) => counted_up(weigh(
                node.inputs.as_slice(),
                node.numbers.as_slice(),
                node.blocks.as_slice(),
            )),
            Label::Modifier(modifier) => counted_up(weigh(
                modifier.inputs.as_slice(),
                modifier.numbers.as_slice(),
                modifier.blocks.as_slice(),
            )),
        }
    }
}

impl Custom {
    /// How much the view counts, by its stored properties and the initial values of its slots. 20,001 stands for all that is
    /// more.
    #[tactic(auto, using(crate::proofs::CountSteps::counted_cut))]
    pub fn count(&self) -> u32
        ensures value { result ≡ min (custom_count self.now) 20001 }
    {
        let weight = weigh_inputs(self.inputs.as_slice());
        counted_up(weight.saturating_add(weight_of_all(self.initials.as_slice())))
    }
}

impl Reader {
    /// How much the reader counts, by its captured locals. 20,001 stands for all that is more.
    #[tactic(auto, using(crate::proofs::CountSteps::counted_cut))]
    pub fn count(&self) -> u32
        ensures value { result ≡ min (reader_count self.now) 20001 }
    {
        counted_up(weigh_inputs(self.captured.as_slice()))
    }
}
