ghost use Rattle.std.specs.Prelude.{◌≡◌, Some, None, true, IsSome, IfOk};
ghost use Rattle.body_means.specs.Modified as of_modifiers;

use body_views::number;
use identity_path::{Input, Inputs};
use std::alloc::{AllocError, Global};
use sv_items::Items;
use sv_value::Value;

fn number_in(argument: &Option<Value>) -> Option<i64>
    requires { IsSome (of_modifiers.number_in argument.now) }
    ensures { of_modifiers.number_in argument.now ≡ Some result }
{
    match argument {
        Some(value) => Some(number(value)),
        None => None,
    }
}

/// Numbers, as they are given.
#[tactic(auto, using(crate::proofs::Options::with_none), unfolding(body_means::specs::Modified::numbers_in))]
pub fn numbers_in(
    alloc: Global,
    arguments: &[Option<Value>],
) -> Result<Items<Option<i64>>, AllocError>
    requires { IsSome (of_modifiers.numbers_in arguments.now) }
    ensures { IfOk result (λ numbers. of_modifiers.numbers_in arguments.now ≡ Some numbers) }
{
    let mut numbers = Items::new(alloc);
    let mut rest = arguments;
    while let [argument, more @ ..] = rest {
        let number = number_in(argument);
        numbers.push(number)?;
        rest = more;
    }
    Ok(numbers)
}

fn truth_in(alloc: Global, argument: &Option<Value>) -> Result<Input, AllocError>
    ensures { IfOk result (λ input. of_modifiers.value_in (Some (Value.Bool true)) argument.now ≡ Some input) }
{
    match argument {
        Some(value) => Ok(Input::Value(value.copy(alloc)?)),
        None => Ok(Input::Value(Value::Bool(true))),
    }
}

/// Truth values. What is left out is true.
#[tactic(auto, using(crate::proofs::Options::with_none), unfolding(body_means::specs::Modified::values_in))]
pub fn truths_in(alloc: Global, arguments: &[Option<Value>]) -> Result<Inputs, AllocError>
    ensures { IfOk result (λ inputs. of_modifiers.values_in (Some (Value.Bool true)) arguments.now ≡ Some inputs) }
{
    let mut inputs = Items::new(alloc);
    let mut rest = arguments;
    while let [argument, more @ ..] = rest {
        let input = truth_in(alloc, argument)?;
        inputs.push(input)?;
        rest = more;
    }
    Ok(inputs)
}

fn value_in(alloc: Global, argument: &Option<Value>) -> Result<Input, AllocError>
    requires { IsSome (of_modifiers.value_in None argument.now) }
    ensures { IfOk result (λ input. of_modifiers.value_in None argument.now ≡ Some input) }
{
    match argument {
        Some(value) => Ok(Input::Value(value.copy(alloc)?)),
        None => unreachable!(),
    }
}

/// Values, of which none is left out.
#[tactic(auto, using(crate::proofs::Options::with_none), unfolding(body_means::specs::Modified::values_in))]
pub fn values_in(alloc: Global, arguments: &[Option<Value>]) -> Result<Inputs, AllocError>
    requires { IsSome (of_modifiers.values_in None arguments.now) }
    ensures { IfOk result (λ inputs. of_modifiers.values_in None arguments.now ≡ Some inputs) }
{
    let mut inputs = Items::new(alloc);
    let mut rest = arguments;
    while let [argument, more @ ..] = rest {
        let input = value_in(alloc, argument)?;
        inputs.push(input)?;
        rest = more;
    }
    Ok(inputs)
}

/// The value of a modifier that has one.
#[tactic(auto, using(crate::proofs::Options::only_one, crate::proofs::Options::only_is))]
pub fn only_value(arguments: &[Option<Value>]) -> &Value
    requires { IsSome (of_modifiers.only_value arguments.now) }
    ensures { of_modifiers.only_value arguments.now ≡ Some result.now }
{
    match arguments {
        [argument] => match argument {
            Some(value) => value,
            None => unreachable!(),
        },
        _ => unreachable!(),
    }
}
