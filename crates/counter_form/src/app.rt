// A program of one counter.
ghost use Rattle.std.specs.Prelude.{◌≡◌, true, IfOk, IfErr, IfSome, MatchOption};
ghost use Rattle.view_engine.specs.Counter.{Shape, shape_of, IsInLimits};
ghost use Rattle.counter_form.specs.App.{SpellsApp, is_ending};
ghost use Rattle.counter_form.specs.Faults.{AppFault, NoApp};
ghost use Rattle.counter_form.specs.Pieces.{value, is_of};
ghost use Rattle.counter_form.specs.declared.pieces.Kind.TheVariants.{Number};
ghost use Rattle.counter_form.specs.declared.app.FormFault.TheVariants.{OutOfMemory};

use crate::pieces::{Piece, cut, number};
use std::alloc::{AllocError, Global};
use view_engine::Form;

/// Why a text gave no program or no script.
#[derive(Clone, Copy, Debug, PartialEq, Eq)]
pub enum FormFault {
    OutOfMemory,
    /// It is not spelled so.
    NotInThisForm,
}

impl From<AllocError> for FormFault {
    ghost from_gives = { λ _ e. e ≡ OutOfMemory };

    fn from(_: AllocError) -> Self {
        FormFault::OutOfMemory
    }
}

/// The texts of a program that may vary.
#[derive(Clone, Copy)]
struct Texts<'a> {
    init: &'a [u8],
    step: &'a [u8],
    prefix: &'a [u8],
    label: &'a [u8],
}

/// Whether the bytes are what may stand behind the last brace.
fn is_last(bytes: &[u8]) -> bool
    ensures { result ≡ is_ending bytes.now }
{
    match bytes {
        [] => true,
        [only] => *only == b'\n',
        _ => false,
    }
}

/// Takes the five lines apart.
fn take_apart(bytes: &[u8]) -> Option<Texts<'_>>
    ensures spelt { MatchOption result (NoApp bytes.now) (λ texts. SpellsApp bytes.now (record {
      init = value texts.init.now;
      step = value texts.step.now;
      prefix = texts.prefix.now;
      label = texts.label.now;
    })) }
    ensures init { IfSome result (λ texts. is_of Number texts.init.now ≡ true) }
    ensures step { IfSome result (λ texts. is_of Number texts.step.now ≡ true) }
{
    let (_, rest) = cut(bytes, Piece::AppLine)?;
    let (_, rest) = cut(rest, Piece::ViewLine)?;
    let (_, rest) = cut(rest, Piece::BeforeInit)?;
    let (init, rest) = cut(rest, Piece::AfterInit)?;
    let (_, rest) = cut(rest, Piece::BeforePrefix)?;
    let (prefix, rest) = cut(rest, Piece::BeforeLabel)?;
    let (label, rest) = cut(rest, Piece::BeforeStep)?;
    let (step, rest) = cut(rest, Piece::AfterStep)?;
    let (_, ending) = cut(rest, Piece::LastLine)?;
    if !is_last(ending) {
        return None;
    }
    Some(Texts {
        init,
        step,
        prefix,
        label,
    })
}

/// The program that the bytes spell.
pub fn read_app(alloc: Global, bytes: &[u8]) -> Result<Form, FormFault>
    ensures spelt { IfOk result (λ form. SpellsApp bytes.now (shape_of form)) }
    ensures only { IfOk result (λ form. (shape : Shape) → SpellsApp bytes.now shape → shape ≡ shape_of form) }
    ensures limits { IfOk result (λ form. IsInLimits (shape_of form)) }
    ensures fault { IfErr result (λ fault. AppFault fault bytes.now) }
{
    let Some(texts) = take_apart(bytes) else {
        return Err(FormFault::NotInThisForm);
    };
    Ok(Form {
        init: number(texts.init),
        step: number(texts.step),
        prefix: texts.prefix.to_vec(alloc)?,
        label: texts.label.to_vec(alloc)?,
    })
}
