// The cells that show a number.
ghost use Rattle.std.specs.Prelude.{◌≡◌, ◌+◌, ◌≤◌, length, replicate, [], ◌∷◌, ◌++◌, IfOk, OnOk, decimal};
ghost use Rattle.view_engine.specs.Counter.{Shape, shape_of, cells, centered, row_of, button, title};
ghost use Rattle.view_engine.specs.Moments.{Shows};

use crate::form::{Canvas, Form, Size};
use std::alloc::{AllocError, Global};

const WIDTH: u32 = 80;

const HEIGHT: u32 = 24;

const TITLE_ROW: u32 = 11;

const BUTTON_ROW: u32 = 12;

const BLANKS: [u8; 80] = [b' '; 80];

/// Adds blank cells.
#[tactic(auto, using(crate::proofs::Joining::blanks))]
fn pad(cells: &mut Vec<u8>, count: usize) -> Result<(), AllocError>
    requires { count ≤ 80 }
    ensures { OnOk result (cells.new.items ≡ cells.old.items ++ replicate count 32) }
{
    cells.extend_from_slice(&BLANKS[..count])?;
    Ok(())
}

/// Adds a row with a text in its middle.
#[tactic(auto, using(std::proofs::Common::append_assoc), unfolding(crate::specs::Counter::centered))]
fn push_centered(cells: &mut Vec<u8>, text: &[u8]) -> Result<(), AllocError>
    requires { length text.now ≤ 80 }
    ensures { OnOk result (cells.new.items ≡ cells.old.items ++ centered text.now) }
{
    let left = 40 - text.len() / 2;
    pad(cells, left)?;
    cells.extend_from_slice(text)?;
    pad(cells, 80 - left - text.len())?;
    Ok(())
}

/// Adds row `y`.
#[tactic(auto, unfolding(crate::specs::Counter::row_of))]
fn push_row(cells: &mut Vec<u8>, y: u32, above: &[u8], below: &[u8]) -> Result<(), AllocError>
    requires above { length above.now ≤ 80 }
    requires below { length below.now ≤ 80 }
    ensures { OnOk result (cells.new.items ≡ cells.old.items ++ row_of above.now below.now y) }
{
    match y {
        TITLE_ROW => push_centered(cells, above),
        BUTTON_ROW => push_centered(cells, below),
        _ => pad(cells, 80),
    }
}

/// The text with the number.
fn title_of(alloc: Global, prefix: &[u8], number: u64) -> Result<Vec<u8>, AllocError>
    ensures text { IfOk result (λ text. text.items ≡ prefix.now ++ decimal number) }
    ensures short { IfOk result (λ text. length text.items ≤ length prefix.now + 20) }
{
    let mut text = Vec::new(alloc);
    text.extend_from_slice(prefix)?;
    text.extend_from_slice(number.to_string(alloc)?.as_bytes())?;
    Ok(text)
}

/// The label in brackets.
fn button_of(alloc: Global, label: &[u8]) -> Result<Vec<u8>, AllocError>
    requires { length label.now ≤ 40 }
    ensures text { IfOk result (λ text. text.items ≡ 91 ∷ label.now ++ 93 ∷ []) }
    ensures short { IfOk result (λ text. length text.items ≡ length label.now + 2) }
{
    let mut text = Vec::new(alloc);
    text.push(b'[')?;
    text.extend_from_slice(label)?;
    text.push(b']')?;
    Ok(text)
}

/// The canvas that shows a number.
#[tactic(auto, using(crate::proofs::Joining::joined_more), unfolding(crate::specs::Joined::joined))]
pub fn paint(alloc: Global, form: &Form, number: u64) -> Result<Canvas, AllocError>
    requires prefix { length form.now.prefix.items ≤ 40 }
    requires label { length form.now.label.items ≤ 40 }
    ensures { IfOk result (λ canvas. Shows canvas (shape_of form.now) number) }
{
    let above = title_of(alloc, &form.prefix, number)?;
    let below = button_of(alloc, &form.label)?;
    let mut cells = Vec::with_capacity(alloc, (WIDTH * HEIGHT) as usize)?;
    for y in 0..HEIGHT {
        push_row(&mut cells, y, &above, &below)?;
    }
    Ok(Canvas {
        size: Size {
            w: WIDTH,
            h: HEIGHT,
        },
        cells,
    })
}
