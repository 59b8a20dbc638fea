ghost use Rattle.std.specs.Prelude.{◌≡◌, ◌++◌, IsSome, IfOk, ◌<◌, length, Some};
ghost use Rattle.std.specs.List.{repeat};
ghost use Rattle.value_calls.specs.Calls.{copies_of, repeated, piece_of, grown, interpolated};
ghost use Rattle.value_calls.specs.Integers.{place_of};
ghost use Rattle.value_calls.specs.Traps.{Answers};

use crate::integers;
use crate::made::{self, MAX_WEIGHT};
use crate::operators::{number_text, truth_text};
use crate::traps::{Stop, TrapKind};
use std::alloc::{AllocError, Global};
use sv_value::{Text, Value};

/// The text so many times in a row.
#[tactic(auto, using(crate::proofs::TextLemmas::repeat_more))]
fn copies(alloc: Global, text: &str, times: usize) -> Result<Text, AllocError>
    ensures { IfOk result (λ all. all ≡ repeat times text.now) }
{
    let mut all = String::new(alloc);
    for _turn in 0..times {
        all.push_str(text)?;
    }
    Ok(Text::from_string(all))
}

#[tactic(auto, using(crate::proofs::TextLemmas::made_repeat_light, crate::proofs::TextLemmas::made_repeat_heavy, crate::proofs::TextLemmas::made_repeat_empty))]
fn copies_made(alloc: Global, text: &Text, times: Option<usize>) -> Result<Value, Stop>
    ensures { Answers result (copies_of text.now times) }
{
    let Some(times) = times else {
        return Err(Stop::Trap(TrapKind::Range));
    };
    if text.len() == 0 {
        return Ok(Value::Str(Text::from_string(String::new(alloc))));
    }
    let weight = (text.len() as u64).saturating_mul(times as u64);
    if weight >= MAX_WEIGHT {
        return Err(Stop::Trap(TrapKind::Weight));
    }
    Ok(Value::Str(copies(alloc, text.as_str(), times)?))
}

/// The string so many times in a row. Trap `range` at a count below 0, and else `weight`, before it is built, where it would
/// be too heavy.
pub fn repeat_text(alloc: Global, text: &Value, times: &Value) -> Result<Value, Stop>
    requires { IsSome (repeated text.now times.now) }
    ensures { Answers result (repeated text.now times.now) }
{
    match text {
        Value::Str(text) => match times {
            Value::Int(times) => copies_made(alloc, text, integers::place(*times)),
            _ => unreachable!(),
        },
        _ => unreachable!(),
    }
}

fn grow(text: Text, more: &Text) -> Result<Text, Stop>
    ensures { Answers result (grown text (Some more.now)) }
{
    let weight = (text.len() as u64).saturating_add(more.len() as u64);
    if weight >= MAX_WEIGHT {
        return Err(Stop::Trap(TrapKind::Weight));
    }
    let mut text = text.into_string();
    text.push_str(more.as_str())?;
    Ok(Text::from_string(text))
}

fn add_piece(alloc: Global, text: Text, piece: &Value) -> Result<Text, Stop>
    requires { IsSome (piece_of piece.now) }
    ensures { Answers result (grown text (piece_of piece.now)) }
{
    match piece {
        Value::Int(number) => {
            let more = number_text(alloc, *number)?;
            grow(text, &more)
        }
        Value::Bool(truth) => {
            let more = truth_text(alloc, *truth)?;
            grow(text, &more)
        }
        Value::Str(more) => grow(text, more),
        _ => unreachable!(),
    }
}

/// A string of its pieces in a row, each a number, a truth value or a string. Trap `weight`, before it grows so far, where it
/// would be too heavy.
pub fn interpolate(alloc: Global, pieces: &[Value]) -> Result<Value, Stop>
    requires { IsSome (interpolated pieces.now) }
    ensures { Answers result (interpolated pieces.now) }
{
    let mut text = Text::from_string(String::new(alloc));
    for piece in pieces {
        text = add_piece(alloc, text, piece)?;
    }
    made::text_of(text)
}
